//! A document is moved from one folder to another by tickets, over each of the two stores, while Searches look for it. None of them finds it
//! in no folder.
#![tactic(auto)]

mod folders;
mod report;
mod scenes;
mod story;

use anyhow::anyhow;
use catalogue::catalogue::Catalogue;
use folders::PLACEMENT;
use report::Report;
use roll::Roll;
use scenes::{file_document, move_document, move_in_vain};
use shelf::Shelf;
use store::VersionStore;
use story::Story;

/// Tells the story over a new store.
fn tell<S: VersionStore>(rt: &HostRuntime) -> anyhow::Result<()> {
    let catalogue = Catalogue::<S>::make(rt.alloc(), 2, 2, &PLACEMENT).map_err(|_| anyhow!(
        "no catalogue was made"
    ))?;
    let mut story = Story {
        report: Report::new(rt),
        catalogue,
    };
    story.report.title("The document is filed in folder A.");
    file_document(&mut story);
    story
        .report
        .title("Two Searches look for it while it is moved to folder B.");
    move_document(&mut story);
    story.report.title("Three moves back come to nothing.");
    move_in_vain(&mut story);
    story.report.end()?;
    Ok(())
}

fn run(rt: &HostRuntime) -> anyhow::Result<()> {
    println!(rt; "Over the shelf\n")?;
    tell::<Shelf>(rt)?;
    println!(rt; "\nOver the roll\n")?;
    tell::<Roll>(rt)
}

fn main(rt: HostRuntime) -> anyhow::Result<()> {
    run(&rt)
}
