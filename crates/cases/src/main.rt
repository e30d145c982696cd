//! Runs tapes whose answers are known, over both stores. Each tape has a title. Its listing over the shelf follows, and then, only where it is another one,
//! its listing over the roll.
#![tactic(auto)]

mod brief;
mod full;
mod limits;
mod orders;
mod show;
mod states;
mod three_nodes;

use full::{all_numbers_begun, roll_full, shelf_full};
use limits::{damaged, makes, no_such, unwritable};
use orders::{nine_keys, not_yet, overtaken};
use states::states;
use three_nodes::three_nodes;

fn run(rt: &HostRuntime) -> anyhow::Result<()> {
    three_nodes(rt)?;
    makes(rt)?;
    damaged(rt)?;
    unwritable(rt)?;
    no_such(rt)?;
    states(rt)?;
    not_yet(rt)?;
    overtaken(rt)?;
    nine_keys(rt)?;
    all_numbers_begun(rt)?;
    shelf_full(rt)?;
    roll_full(rt)
}

fn main(rt: HostRuntime) -> anyhow::Result<()> {
    run(&rt)
}
