//! The keys that a transaction writes at a node.

ghost use Rattle.std.specs.Prelude.{◌≡◌, ℕ, ◌<◌, ◌≤◌, length, slice_index};
ghost use Rattle.rules.specs.World.{World, written_at};

use crate::placing::all_keys;
use crate::writing::writes_key;
use arrayvec::ArrayVec;
use calls::sizes::{KeyNumber, NodeNumber};
use rules::records::Transaction;

/// The keys that a transaction writes and that a node holds, in ascending order. There is room for them all: no call takes memory.
pub fn written_keys(placement: &[u8], x: &Transaction, p: NodeNumber) -> ArrayVec<KeyNumber, 64>
    ensures keys { (w : World) → w.placement ≡ placement.now → result.items ≡ written_at w x.now p }
    ensures count { length result.items ≤ 64 }
    ensures low { (i : ℕ) → i < length result.items → slice_index result.items i < 64 }
{
    let mut found = ArrayVec::new();
    for k in all_keys().filter(|k| writes_key(placement, x, p, *k)) {
        found.push(k);
    }
    found
}
