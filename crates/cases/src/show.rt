use anyhow::anyhow;
use calls::call::Call;
use listing::listing_of;
use roll::Roll;
use runner::{Report, run_tape};
use shelf::Shelf;
use std::alloc::Global;
use store::VersionStore;
use tape::write::write;

/// The listing of a tape over a store, without its first lines.
fn listed<S: VersionStore>(heap: Global, tape: &[u8], skipped: usize) -> anyhow::Result<String> {
    let report: Report<S> = run_tape(heap, tape).map_err(|_| anyhow!(
        "not enough memory to run the tape"
    ))?;
    let lines = report.lines.as_slice();
    let shown = lines
        .get(skipped..)
        .ok_or_else(|| anyhow!("too few lines"))?;
    let text = listing_of(heap, shown)?;
    Ok(text)
}

// The runtime and a title stay two parameters of the functions that print a case: each prints the one and hands on the other.

/// Prints a title, and a tape's listing over the shelf, without its first lines. Where the roll gives another listing, prints that too.
pub(crate) fn show_tape(
    rt: &HostRuntime,
    title: &str,
    tape: &[u8],
    skipped: usize,
) -> anyhow::Result<()> {
    println!(rt; "{title}")?;
    let over_shelf = listed::<Shelf>(rt.alloc(), tape, skipped)?;
    let over_roll = listed::<Roll>(rt.alloc(), tape, skipped)?;
    print!(rt; "{over_shelf}")?;
    if over_roll != over_shelf {
        print!(rt; "over the roll\n{over_roll}")?;
    }
    Ok(())
}

/// Writes some calls to a tape, and shows what comes of it.
pub(crate) fn show_end(
    rt: &HostRuntime,
    title: &str,
    calls: &[Call<'_>],
    skipped: usize,
) -> anyhow::Result<()> {
    let mut buffer = vec![in rt.alloc(); 0u8; 32_768]?;
    let len = write(calls, buffer.as_mut_slice()).map_err(|_| anyhow!("the calls have no tape"))?;
    let tape = buffer
        .as_slice()
        .get(..len)
        .ok_or_else(|| anyhow!("the tape is too long"))?;
    show_tape(rt, title, tape, skipped)
}

pub(crate) fn show(rt: &HostRuntime, title: &str, calls: &[Call<'_>]) -> anyhow::Result<()> {
    show_end(rt, title, calls, 0)
}
