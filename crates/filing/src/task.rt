// The same task over any store: one document at two nodes, its folder as the value, the number of the move as the writer.
ghost use Rattle.std.specs.Prelude.{◌≡◌};
ghost use Rattle.filing.specs.Filed.{filed_answer, filed_after};

use std::io;
use store::{Version, VersionStore};

const DOCUMENT: u8 = 7;

const FIRST_NODE: u8 = 0;

const SECOND_NODE: u8 = 1;

// Files a version of a document at two nodes: a place at each first, and then the version at each. Where a node has no
// place, nothing changes, and that node is the answer.
pub fn file_at<S: VersionStore>(
    store: &mut S,
    first: u8,
    second: u8,
    key: u8,
    version: Version,
) -> Result<(), u8>
    ensures answer { result ≡ filed_answer (S.free store.old) (S.meaning store.old) first second key }
    ensures after { S.meaning store.new ≡ filed_after (S.free store.old) (S.meaning store.old) first second key version }
    ensures rule { S.free store.new ≡ S.free store.old }
{
    store.set_aside(first, key).map_err(|_| first)?;
    // No `?` here: the place at the first node is given back before the answer.
    if store.set_aside(second, key).is_err() {
        let _ = store.give_back(first, key);
        return Err(second);
    }
    let _ = store.put(first, key, version);
    let _ = store.put(second, key, version);
    Ok(())
}

// The runtime and the store stay two parameters: what is printed is told by one line each, and most of these functions only look at the store.

fn move_to<S: VersionStore>(
    rt: &impl Print,
    store: &mut S,
    folder: u64,
    number: u8,
) -> io::Result<()> {
    let version = Version {
        value: folder,
        writer: number,
    };
    match file_at(store, FIRST_NODE, SECOND_NODE, DOCUMENT, version) {
        Ok(()) => println!(rt; "  move {number}: document {DOCUMENT} goes to folder {folder}"),
        Err(node) => println!(rt;
            "  move {number}: folder {folder} is refused, node {node} has no place for another version"
        ),
    }
}

fn show_now<S: VersionStore>(rt: &impl Print, store: &S, node: u8) -> io::Result<()> {
    match store.newest(node, DOCUMENT) {
        Some((folder, number)) => println!(rt;
            "  node {node}: now in folder {folder}, by move {number}"
        ),
        None => println!(rt; "  node {node}: no such document"),
    }
}

fn show_earlier<S: VersionStore>(
    rt: &impl Print,
    store: &S,
    node: u8,
    steps: usize,
) -> io::Result<()> {
    match store.nth(node, DOCUMENT, steps) {
        Some((_, 0)) => println!(rt; "  node {node}, {steps} back: not yet filed"),
        Some((folder, number)) => println!(rt;
            "  node {node}, {steps} back: in folder {folder}, by move {number}"
        ),
        None => println!(rt; "  node {node}, {steps} back: nothing older"),
    }
}

// A place is kept for a move that is then not made.
fn change_of_mind<S: VersionStore>(rt: &impl Print, store: &mut S) -> io::Result<()> {
    match store.set_aside(FIRST_NODE, DOCUMENT) {
        Ok(()) => println!(rt; "  a place is set aside at node {FIRST_NODE}")?,
        Err(_) => println!(rt; "  no place is free at node {FIRST_NODE}")?,
    }
    match store.give_back(FIRST_NODE, DOCUMENT) {
        Ok(()) => println!(rt; "  the move is called off, the place is given back")?,
        Err(_) => println!(rt; "  there is no place to give back")?,
    }
    match store.give_back(FIRST_NODE, DOCUMENT) {
        Ok(()) => println!(rt; "  a second place is given back"),
        Err(_) => println!(rt; "  no other place is set aside there"),
    }
}

pub(crate) fn run<S: VersionStore>(rt: &impl Print, store: &mut S) -> io::Result<()> {
    move_to(rt, store, 101, 1)?;
    move_to(rt, store, 102, 2)?;
    move_to(rt, store, 103, 3)?;
    show_now(rt, store, FIRST_NODE)?;
    show_now(rt, store, SECOND_NODE)?;
    for steps in 1..5 {
        show_earlier(rt, store, SECOND_NODE, steps)?;
    }
    change_of_mind(rt, store)?;
    move_to(rt, store, 104, 4)?;
    move_to(rt, store, 105, 5)?;
    show_now(rt, store, FIRST_NODE)
}
