//! Whether a transaction writes at a node.

ghost use Rattle.std.specs.Prelude.{◌≡◌, ℕ, ◌&&◌, slice_index};
ghost use Rattle.rules.specs.World.{World, bit, some_below, wrote, is_write_node};

use crate::named::has_written;
use crate::placing::{all_keys, holders, holds, is_held};
use calls::sizes::{KeyNumber, NodeNumber};
use rules::records::Transaction;

/// Whether a transaction has written a key that a node holds.
pub fn writes_key(placement: &[u8], x: &Transaction, p: NodeNumber, k: KeyNumber) -> bool
    ensures { result ≡ (wrote x.now k && bit (slice_index placement.now k) p) }
{
    has_written(x, k) && holds(placement, p, k)
}

/// Whether a node holds a key that a transaction writes.
pub fn writes_at(placement: &[u8], x: &Transaction, p: NodeNumber) -> bool
    ensures { (w : World) → w.placement ≡ placement.now → result ≡ is_write_node w x.now p }
{
    all_keys().any(|k| writes_key(placement, x, p, k))
}

/// Whether a transaction writes at some node. It stops at the first such key.
pub fn has_write_node(placement: &[u8], x: &Transaction) -> bool
    ensures { (w : World) → w.placement ≡ placement.now → result ≡ some_below 8 (is_write_node w x.now) }
{
    all_keys().any(|k| has_written(x, k) && is_held(placement, k))
}

/// The byte of all nodes at which a transaction writes: who asks of all of them goes through the keys once.
// The fold of `polled` over other keys: see there. With a filter: without it, `commit_clock_of` took a third longer.
pub fn write_nodes(placement: &[u8], x: &Transaction) -> u8
    ensures { (w : World) → w.placement ≡ placement.now → (q : ℕ) → bit result q ≡ is_write_node w x.now q }
{
    all_keys()
        .filter(|k| has_written(x, *k))
        .fold(0, |byte, k| byte | holders(placement, k))
}
