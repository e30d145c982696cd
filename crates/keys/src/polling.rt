//! The nodes that an update polls.

ghost use Rattle.std.specs.Prelude.{◌≡◌, ◌||◌};
ghost use Rattle.rules.specs.World.{World, noted, wrote};
ghost use Rattle.rules.specs.Deciding.{polled_byte};

use crate::named::{has_noted, has_written};
use crate::placing::{all_keys, holders};
use calls::sizes::KeyNumber;
use rules::records::Transaction;

/// Whether a transaction noted or wrote a key.
fn names(x: &Transaction, k: KeyNumber) -> bool
    ensures { result ≡ (noted x.now k || wrote x.now k) }
{
    has_noted(x, k) || has_written(x, k)
}

/// The byte of all holders of the keys that a transaction noted or wrote.
// The fold of `write_nodes` over other keys: a function that takes the test would need clauses on its closure, longer than both.
pub fn polled(placement: &[u8], x: &Transaction) -> u8
    ensures { (w : World) → w.placement ≡ placement.now → result ≡ polled_byte w x.now }
{
    all_keys().fold(0, |byte, k| {
        if names(x, k) {
            byte | holders(placement, k)
        } else {
            byte
        }
    })
}
