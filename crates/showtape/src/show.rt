use crate::shown::Shown;
use anyhow::anyhow;
use tape::read::read;

/// Prints a title, and then for each record of a tape its place with its call or its refusal.
pub(crate) fn show(rt: &HostRuntime, title: &str, tape: &[u8]) -> anyhow::Result<()> {
    println!(rt; "{title}")?;
    let records = read(rt.alloc(), tape).map_err(|_| anyhow!("no memory for the records"))?;
    for record in &records {
        let place = record.place;
        match record.content {
            Ok(call) => println!(rt; "{place} {}", Shown(call))?,
            Err(refusal) => println!(rt; "{place} {refusal}")?,
        }
    }
    Ok(())
}
