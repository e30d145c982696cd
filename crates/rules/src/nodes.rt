//! A set of nodes as a byte: bit h stands for node h.

ghost use Rattle.std.specs.Prelude.{◌≡◌, ◌<◌, true};
ghost use Rattle.rules.specs.World.{bit};

use calls::sizes::NodeNumber;

/// Whether a byte names a node.
pub fn names(nodes: u8, p: NodeNumber) -> bool
    ensures value { result ≡ bit nodes p }
    ensures node { result ≡ true → p < 8 }
{
    p < 8 && (nodes >> p) % 2 == 1
}
