// The four places of one chain.
ghost use Rattle.std.specs.Prelude.{◌+◌, ◌≤◌};

use store::Version;

pub mod calls;

// How many places a chain has.
pub const PLACES: usize = 4;

// The stored versions stand in the first places, the oldest first; the first version of all is not stored. An array with a
// count, and no `Vec`: all memory of a shelf is taken when it is made, in one table, and a chain is copied out and in whole.
#[derive(Clone, Copy)]
pub struct Slots {
    versions: [Version; PLACES],
    stored: usize,
    aside: usize,
    ghost fits: { stored + aside ≤ 4 },
}
