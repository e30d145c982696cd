use anyhow::anyhow;
use tape::read::read;
use tape::write::write;

/// Writes the calls of a tape, and prints whether that gives the tape's own bytes.
pub(crate) fn written_again(rt: &HostRuntime, tape: &[u8]) -> anyhow::Result<()> {
    let heap = rt.alloc();
    let records = read(heap, tape).map_err(|_| anyhow!("no memory for the records"))?;
    let calls: Vec<_> = records
        .iter()
        .filter_map(|record| record.content.ok())
        .collect(heap)?;
    let mut buffer = vec![in heap; 255u8; tape.len()]?;
    let answer = write(&calls, &mut buffer);
    let same = answer.is_ok() && buffer.as_slice() == tape;
    println!(rt; "written again, the same bytes: {same}")?;
    Ok(())
}
