//! Changes of a transaction's record by a vote. The first vote of a node raises a number once.

ghost use Rattle.std.specs.Prelude.{◌≡◌, ℕ, ◌+◌, ◌<◌, ◌≤◌, false};
ghost use Rattle.clock.specs.Clocks.{marked};
ghost use Rattle.rules.specs.Changes.{has_no, has_yes, is_numbered};
ghost use Rattle.records.specs.Bounds.{ClockWithin, TransactionWithin, Raises};

use crate::rows::put_entry;
use calls::sizes::{NodeNumber, Stamp};
use clock::{Clock, join};
use rules::records::Transaction;

// That the node has not voted is a premise of each: it is said of a record and a node at one moment, and the record may be voted on by others.

/// Takes a node's no.
pub fn vote_no(x: &mut Transaction, p: NodeNumber)
    ensures value { x.new ≡ has_no p x.old }
    ensures raised { (b : ℕ) → p < 8 → marked x.old.voted p ≡ false → TransactionWithin b x.old → Raises b x.old x.new }
{
    put_entry(&mut x.voted, p, true);
    x.refused = true;
}

/// Takes a node's yes, which carries the node's seen clock.
pub fn vote_yes(x: &mut Transaction, p: NodeNumber, seen: Clock)
    ensures value { x.new ≡ has_yes p seen x.old }
    ensures raised { (b : ℕ) → p < 8 → marked x.old.voted p ≡ false → TransactionWithin b x.old → ClockWithin b seen → Raises b x.old x.new }
{
    put_entry(&mut x.voted, p, true);
    put_entry(&mut x.engaged, p, true);
    x.votes = join(x.votes, seen);
}

/// Takes a node's yes that gives the transaction a number.
pub fn vote_yes_with_number(x: &mut Transaction, p: NodeNumber, seen: Clock, number: Stamp)
    ensures value { x.new ≡ is_numbered p number (has_yes p seen x.old) }
    ensures raised { (b : ℕ) → p < 8 → marked x.old.voted p ≡ false → TransactionWithin b x.old → ClockWithin b seen → number ≤ b + 256 → Raises b x.old x.new }
{
    vote_yes(x, p, seen);
    put_entry(&mut x.numbers, p, number);
}
