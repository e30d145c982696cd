//! The commit of an update: its stamp and its commit clock.
//!
//! Placement, transaction and node stay separate parameters, as in `keys`.
#![tactic(auto)]

ghost use Rattle.std.specs.Prelude.{◌≡◌, ℕ, ◌+◌, ◌^◌, ◌<◌, ◌≤◌, if◌then◌else◌, Some, nat_lt};
ghost use Rattle.clock.specs.Numbers.{if_fits};
ghost use Rattle.rules.specs.World.{World, bit};
ghost use Rattle.rules.specs.Changes.{is_committed};
ghost use Rattle.rules.specs.Deciding.{base_clock, stamp_of, stamped};
ghost use Rattle.records.specs.Bounds.{ClockWithin};

use calls::sizes::{NodeNumber, Stamp, TransactionNumber};
use clock::{Clock, join, stamp};
use keys::writing::{has_write_node, write_nodes};
use rules::nodes::names;
use rules::records::{State, Transaction};
use std::array::from_fn;

/// The base of an update: the join of its clock and of the clocks that the votes carried.
fn base_clock(x: &Transaction) -> Clock
    ensures { result ≡ base_clock x.now }
{
    join(x.clock, x.votes)
}

/// The stamp of an update, if 32 bits hold it: 0 where it writes at no node. It is at most 256 above all numbers that it is made from.
pub fn stamp_of(placement: &[u8], t: TransactionNumber, x: &Transaction) -> Option<Stamp>
    ensures value { (w : World) → w.placement ≡ placement.now → result ≡ if_fits (stamp_of w t x.now) }
    ensures within { (w : World) → w.placement ≡ placement.now → (b : ℕ) → b + 256 < 2 ^ 32 → ClockWithin b x.now.clock → ClockWithin b x.now.numbers → ClockWithin b x.now.votes → (result ≡ Some (stamp_of w t x.now)) × (stamp_of w t x.now ≤ b + 256) }
{
    if !has_write_node(placement, x) {
        return Some(0);
    }
    stamp(x.numbers, base_clock(x), t)
}

/// What the commit clock of an update has for a node: the stamp at a write node, and else what its base has.
fn commit_slot(nodes: u8, q: NodeNumber, number: Stamp, base: Stamp) -> Stamp
    ensures { result ≡ (if bit nodes q then number else base) }
{
    if names(nodes, q) { number } else { base }
}

/// The commit clock of an update with this stamp. No slot is higher than the stamp and all slots that it is made from.
pub fn commit_clock_of(placement: &[u8], x: &Transaction, number: Stamp) -> Clock
    ensures value { (w : World) → w.placement ≡ placement.now → result ≡ stamped w x.now number }
    ensures within { (b : ℕ) → number ≤ b → ClockWithin b x.now.clock → ClockWithin b x.now.votes → ClockWithin b result }
{
    let nodes = write_nodes(placement, x);
    let base = base_clock(x);
    // `from_fn` gives the places 0 to 7.
    from_fn(|q| commit_slot(nodes, q as NodeNumber, number, base[q]))
}

/// Commits an update, and gives its stamp, if 32 bits hold it; else the update stays as it is. Its stamp and its commit clock are at most 256 above all numbers that they are made from.
pub fn commit(placement: &[u8], t: TransactionNumber, x: &mut Transaction) -> Option<Stamp>
    ensures answer { (w : World) → w.placement ≡ placement.now → result ≡ if_fits (stamp_of w t x.old) }
    ensures value { (w : World) → w.placement ≡ placement.now → x.new ≡ (if nat_lt (stamp_of w t x.old) (2 ^ 32) then is_committed (stamp_of w t x.old) (stamped w x.old (stamp_of w t x.old)) x.old else x.old) }
    ensures within { (w : World) → w.placement ≡ placement.now → (b : ℕ) → b + 256 < 2 ^ 32 → ClockWithin b x.old.clock → ClockWithin b x.old.numbers → ClockWithin b x.old.votes → (result ≡ Some (stamp_of w t x.old)) × (x.new ≡ is_committed (stamp_of w t x.old) (stamped w x.old (stamp_of w t x.old)) x.old) × (stamp_of w t x.old ≤ b + 256) × ClockWithin (b + 256) (stamped w x.old (stamp_of w t x.old)) }
{
    let number = stamp_of(placement, t, x)?;
    x.commit = commit_clock_of(placement, x, number);
    x.state = State::Committed;
    x.stamp = number;
    Some(number)
}
