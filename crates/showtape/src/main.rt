//! Prints what the tape on standard input says, and whether writing its calls gives the same bytes. Then prints what the reader makes of tapes that are
//! damaged in known ways, what the writer makes of calls that it has to refuse, and a listing with every kind of answer.
#![tactic(auto)]

mod again;
mod answers;
mod damaged;
mod refused;
mod show;
mod shown;

use again::written_again;
use answers::show_answers;
use damaged::show_damaged;
use refused::show_refused;
use show::show;
use std::io::Read;

fn run(rt: &HostRuntime) -> anyhow::Result<()> {
    let mut tape = Vec::new(rt.alloc());
    rt.stdin().read_to_end(&mut tape)?;
    show(rt, "standard input", tape.as_slice())?;
    written_again(rt, tape.as_slice())?;
    show_damaged(rt)?;
    show_refused(rt)?;
    show_answers(rt)
}

fn main(rt: HostRuntime) -> anyhow::Result<()> {
    run(&rt)
}
