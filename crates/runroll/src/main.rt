//! Runs the tape on standard input on a new unit over the roll, and prints a line for each record.
#![tactic(auto)]

use roll::Roll;
use runtape::listing_from;

// The other program's `main` is this one over its own store: a program has a `main`, and what both do is `listing_from`.
fn main(rt: HostRuntime) -> anyhow::Result<()> {
    let listing = listing_from::<Roll, _>(rt.alloc(), rt.stdin())?;
    // A printing macro writes in such parts too, but goes through them byte by byte; a socket that keeps the bounds of messages does not take a text of every length at once.
    for part in listing.as_bytes().chunks(1024) {
        rt.write_all(part)?;
    }
    Ok(())
}
