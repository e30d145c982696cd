//! Which nodes an update polls, and whether they have voted.

ghost use Rattle.std.specs.Prelude.{◌≡◌, not, ◌||◌, length};
ghost use Rattle.clock.specs.Clocks.{marked};
ghost use Rattle.rules.specs.World.{bit};
ghost use Rattle.rules.specs.Deciding.{nodes_of, all_voted};

use crate::marks::is_marked;
use calls::sizes::NodeNumber;
use rules::nodes::names;
use rules::records::Transaction;
use std::ops::Range;

/// How many nodes a byte names.
#[tactic(auto, using(crate::proofs::Ones::ones_nodes))]
pub fn count_nodes(nodes: u8) -> u8
    ensures { result ≡ length (nodes_of nodes) }
{
    // At most eight.
    nodes.count_ones() as u8
}

/// Whether an offered update polls a node.
pub fn is_polled(x: &Transaction, p: NodeNumber) -> bool
    ensures { result ≡ bit x.now.polled p }
{
    names(x.polled, p)
}

/// Whether a node has voted on an update, if the update polls it.
fn has_voted(x: &Transaction, p: NodeNumber) -> bool
    ensures { result ≡ (not (bit x.now.polled p) || marked x.now.voted p) }
{
    !is_polled(x, p) || is_marked(&x.voted, p)
}

/// All nodes, from the first to the last.
fn all_nodes() -> Range<NodeNumber>
    ensures { result ≡ record { start = 0; end = 8 } }
{
    0..8
}

/// Whether all nodes that an update polls have voted.
pub fn all_voted(x: &Transaction) -> bool
    ensures { result ≡ all_voted x.now }
{
    all_nodes().all(|p| has_voted(x, p))
}
