use crate::brief::{apply, finish, make, offer, read, reader, update, write_key};
use crate::show::{show, show_tape};
use calls::call::Call;
use tape::write::write as write_tape;

/// Makes that cannot be made, and records before and after the accepted one.
pub(crate) fn makes(rt: &HostRuntime) -> anyhow::Result<()> {
    let calls = [
        reader(),
        make(0, 1, &[1]),
        make(9, 1, &[1]),
        make(2, 0, &[]),
        make(1, 65, &[1; 65]),
        make(1, 2, &[1, 0]),
        make(2, 2, &[1, 4]),
        apply(0),
        make(2, 3, &[1, 2, 3]),
        make(2, 3, &[1, 2, 3]),
        make(0, 1, &[1]),
        update(),
    ];
    show(rt, "makes", &calls)
}

/// Records that say nothing, a tape that is cut, and one that is too long.
pub(crate) fn damaged(rt: &HostRuntime) -> anyhow::Result<()> {
    // A make with a placement byte too few; a make; kind 11; length 1; begin byte 2; an offer with a byte too many; a begin; a finish that is cut.
    let tape = [
        5, 0, 0, 0, 1, 2, 1, 5, 0, 0, 0, 1, 1, 1, 2, 0, 11, 0, 1, 0, 9, 3, 0, 1, 0, 2, 4, 0, 4, 0,
        7, 7, 3, 0, 1, 0, 0, 3, 0, 10,
    ];
    show_tape(rt, "damaged records", &tape, 0)?;
    let long = vec![in rt.alloc(); 0u8; 32_769]?;
    show_tape(rt, "a tape that is too long", long.as_slice(), 0)
}

/// Prints what the writer answers to some calls, with a buffer of six bytes. (`showtape` has one that prints the buffer too; a program is no library for another.)
fn show_written(rt: &HostRuntime, calls: &[Call<'_>]) -> anyhow::Result<()> {
    let mut buffer = [0u8; 6];
    match write_tape(calls, &mut buffer) {
        Ok(len) => println!(rt; "{len} bytes")?,
        Err(refusal) => println!(rt; "{refusal}")?,
    }
    Ok(())
}

/// Calls that the writer refuses: a begin of no mode, and an offer more than the buffer takes.
pub(crate) fn unwritable(rt: &HostRuntime) -> anyhow::Result<()> {
    println!(rt; "writing a tape")?;
    show_written(rt, &[offer(1)])?;
    show_written(rt, &[offer(1), offer(1)])?;
    show_written(rt, &[offer(1), offer(1), Call::Begin { mode: 2 }])
}

/// Numbers of transactions, nodes and keys that there are not. The lowest refusal comes first.
pub(crate) fn no_such(rt: &HostRuntime) -> anyhow::Result<()> {
    let calls = [
        make(2, 3, &[1, 2, 3]),
        read(0, 0, 0),
        read(1, 0, 0),
        reader(),
        read(1, 0, 2),
        read(1, 3, 0),
        read(2, 3, 2),
        read(1, 3, 2),
        read(1, 1, 0),
        apply(2),
        write_key(1, 0, 5),
        write_key(1, 3, 5),
        read(1, 0, 0),
        finish(1),
        finish(1),
        read(1, 1, 0),
        read(1, 0, 0),
    ];
    show(rt, "no such transaction, node or key", &calls)
}
