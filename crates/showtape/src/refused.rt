use crate::shown::Spaced;
use calls::call::Call;
use tape::write::write;

/// Writes some calls into a buffer of six bytes, and prints the answer with the buffer. (`cases` has one that prints the answer alone.)
fn show_written(rt: &HostRuntime, title: &str, calls: &[Call<'_>]) -> anyhow::Result<()> {
    let mut buffer = [9u8; 6];
    println!(rt; "{title}")?;
    let answer = write(calls, &mut buffer);
    let bytes = Spaced(&buffer);
    match answer {
        Ok(len) => println!(rt; "{len} bytes:{bytes}")?,
        Err(refusal) => println!(rt; "{refusal}:{bytes}")?,
    }
    Ok(())
}

/// Prints what the writer makes of calls that fit the buffer, that do not, and that have no record.
pub(crate) fn show_refused(rt: &HostRuntime) -> anyhow::Result<()> {
    let offer = Call::Offer { transaction: 7 };
    let level = Call::Begin { mode: 2 };
    let make = Call::Make {
        nodes: 1,
        keys: 2,
        placement: &[1],
    };
    show_written(rt, "an offer", &[offer])?;
    show_written(rt, "two offers", &[offer, offer])?;
    show_written(rt, "begin byte 2", &[level])?;
    show_written(
        rt,
        "two offers and a make without its last placement byte",
        &[offer, offer, make],
    )
}
