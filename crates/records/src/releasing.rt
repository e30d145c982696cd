//! Changes of a transaction's record and of a node's, where the node learns a decision, applies or releases.

ghost use Rattle.std.specs.Prelude.{◌≡◌, ℕ, ◌≤◌, max};
ghost use Rattle.rules.specs.Changes.{is_numbered, is_learned, is_released, is_applied};
ghost use Rattle.rules.specs.Voting.{counted};
ghost use Rattle.rules.specs.Applying.{has_seen, advanced};
ghost use Rattle.records.specs.Bounds.{ClockWithin, NodeWithin, Keeps};

use crate::rows::put_entry;
use calls::sizes::{NodeNumber, Stamp};
use clock::{Clock, join};
use rules::records::{Node, Transaction};

/// Marks that a transaction is no longer engaged at a node.
fn disengage(x: &mut Transaction, p: NodeNumber)
    ensures { x.new ≡ is_released p x.old }
{
    put_entry(&mut x.engaged, p, false);
}

// `apply` and `release` are two lines each, which differ in the row that they mark; each has a definition of its own in the rules.

/// Marks that a node has applied a transaction, and releases it there.
#[tactic(auto, using(crate::proofs::Bounded::keeps_same))]
pub fn apply(x: &mut Transaction, p: NodeNumber)
    ensures value { x.new ≡ is_applied p (is_released p x.old) }
    ensures kept { Keeps x.old x.new }
{
    disengage(x, p);
    put_entry(&mut x.applied, p, true);
}

/// Marks that a node has learned the decision of a transaction, and releases it there.
#[tactic(auto, using(crate::proofs::Bounded::keeps_same))]
pub fn release(x: &mut Transaction, p: NodeNumber)
    ensures value { x.new ≡ is_learned p (is_released p x.old) }
    ensures kept { Keeps x.old x.new }
{
    disengage(x, p);
    put_entry(&mut x.learned, p, true);
}

/// Marks that a write node has learned the commit of a transaction: its number there becomes its stamp.
pub fn learn_number(x: &mut Transaction, p: NodeNumber)
    ensures value { x.new ≡ is_learned p (is_numbered p x.old.stamp x.old) }
    ensures kept { Keeps x.old x.new }
{
    put_entry(&mut x.numbers, p, x.stamp);
    put_entry(&mut x.learned, p, true);
}

/// The node, with a counter of at least this.
pub fn counted(n: Node, stamp: Stamp) -> Node
    ensures value { result ≡ counted (max n.counter stamp) n }
    ensures within { (b : ℕ) → NodeWithin b n → stamp ≤ b → NodeWithin b result }
{
    Node {
        counter: n.counter.max(stamp),
        ..n
    }
}

/// The node, with this commit clock taken into its seen clock.
pub fn has_seen(n: Node, commit: Clock) -> Node
    ensures value { result ≡ has_seen commit n }
    ensures within { (b : ℕ) → NodeWithin b n → ClockWithin b commit → NodeWithin b result }
{
    Node {
        seen: join(n.seen, commit),
        ..n
    }
}

/// The node, with this commit clock taken into its seen clock and this stamp for its frontier.
pub fn advanced(n: Node, stamp: Stamp, commit: Clock) -> Node
    ensures value { result ≡ advanced stamp (has_seen commit n) }
    ensures within { (b : ℕ) → NodeWithin b n → stamp ≤ b → ClockWithin b commit → NodeWithin b result }
{
    Node {
        frontier: stamp,
        ..has_seen(n, commit)
    }
}
