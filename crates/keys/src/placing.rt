//! A placement has for each key a byte that says which nodes hold it: bit h stands for node h.

ghost use Rattle.std.specs.Prelude.{◌≡◌, ◌^◌, ◌<◌, ◌≤◌, true, ◌&&◌, length, nat_lt, slice_index};
ghost use Rattle.rules.specs.World.{bit, some_below};
ghost use Rattle.rules.specs.Steps.{all_placed, can_make};

use calls::sizes::{KeyNumber, NodeNumber};
use rules::nodes::names;
use std::ops::Range;

/// All keys, from the lowest to the highest.
pub(crate) fn all_keys() -> Range<KeyNumber>
    ensures { result ≡ record { start = 0; end = 64 } }
{
    0..64
}

/// The byte of a key's holders; no node holds what is no key. One expression of the library's methods, as for other rows: a generic function would be no shorter.
pub(crate) fn holders(placement: &[u8], k: KeyNumber) -> u8
    ensures { result ≡ slice_index placement.now k }
{
    placement.get(usize::from(k)).copied().unwrap_or(0)
}

/// Whether a node holds a key.
pub fn holds(placement: &[u8], p: NodeNumber, k: KeyNumber) -> bool
    ensures value { result ≡ bit (slice_index placement.now k) p }
    ensures node { result ≡ true → p < 8 }
{
    names(holders(placement, k), p)
}

/// Whether some node holds a key.
pub(crate) fn is_held(placement: &[u8], k: KeyNumber) -> bool
    ensures { result ≡ some_below 8 (bit (slice_index placement.now k)) }
{
    holders(placement, k) > 0
}

/// Whether a byte names a holder, and no node past the last.
fn names_holders(nodes: u8, byte: u8) -> bool
    requires { nodes ≤ 8 }
    ensures { result ≡ (nat_lt 0 byte && nat_lt byte (2 ^ nodes)) }
{
    byte > 0 && u16::from(byte) < 1 << nodes
}

/// Whether every byte of a placement names a holder, and no node past the last.
fn is_placement(nodes: u8, placement: &[u8]) -> bool
    requires { nodes ≤ 8 }
    ensures { result ≡ all_placed nodes placement.now }
{
    placement.iter().all(|byte| names_holders(nodes, *byte))
}

/// Whether counts and placement are those of a catalogue: one to eight nodes, one to 64 keys, and for each key a byte that names its holders.
// Three values, as a make has them: a struct of what may be no catalogue's would be made to be taken apart here.
pub fn can_make(nodes: u8, keys: u8, placement: &[u8]) -> bool
    ensures value { result ≡ can_make nodes keys placement.now }
    ensures bounds { result ≡ true → (1 ≤ nodes) × (nodes ≤ 8) × (length placement.now ≤ 64) }
{
    (1..=8).contains(&nodes)
        && (1..=64).contains(&keys)
        && placement.len() == usize::from(keys)
        && is_placement(nodes, placement)
}
