// A document is filed, moved and looked up again, over each of the two stores.
#![tactic(auto)]

mod fifth;
mod task;

use fifth::{roll_takes_fifth, shelf_takes_fifth};
use roll::Roll;
use shelf::Shelf;
use store::{Version, VersionStore};

/// Carries out the task over a new store.
fn tell<S: VersionStore>(rt: &HostRuntime, title: &str) -> anyhow::Result<()> {
    println!(rt; "{title}")?;
    let mut store = S::new(rt.alloc())?;
    task::run(rt, &mut store)?;
    Ok(())
}

fn main(rt: HostRuntime) -> anyhow::Result<()> {
    tell::<Shelf>(&rt, "On the shelf:")?;
    tell::<Roll>(&rt, "On the roll:")?;
    let version = Version {
        value: 101,
        writer: 1,
    };
    let (_, on_shelf) = shelf_takes_fifth(rt.alloc(), version)?;
    let (_, on_roll) = roll_takes_fifth(rt.alloc(), version)?;
    println!(rt; "A place for a fifth version of one key: shelf {on_shelf}, roll {on_roll}")?;
    Ok(())
}
