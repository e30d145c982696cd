//! Vector clocks, the numbers that nodes give to updates, and the stamps of commits.
#![tactic(auto)]

ghost use Rattle.std.specs.Prelude.{◌≡◌, ◌^◌, ◌<◌, Decides};
ghost use Rattle.clock.specs.Clocks.{join, passes, Passes};
ghost use Rattle.clock.specs.Numbers.{next_number, first_leaving, highest, stamp_number, if_fits, NumbersAreLeast};

use calls::sizes::{Stamp, TransactionNumber};
use std::array;

/// A number for each node.
pub type Clock = [Stamp; 8];

/// A mark for each node.
pub type NodeMarks = [bool; 8];

/// What every number and every stamp leaves its transaction's number by.
pub const MODULUS: u64 = 256;

/// The larger of two clocks, slot by slot.
pub fn join(a: Clock, b: Clock) -> Clock
    ensures { result ≡ join a b }
{
    array::from_fn(|q| a[q].max(b[q]))
}

/// Whether a commit clock is no higher than a clock in the slots of the nodes that are marked as read at.
pub fn passes(read: NodeMarks, commit: Clock, clock: Clock) -> bool
    ensures means { Decides result (Passes read commit clock) }
    ensures value { result ≡ passes read commit clock }
{
    read.iter()
        .zip(&commit)
        .zip(&clock)
        .all(|((read, commit), clock)| !read || commit <= clock)
}

/// The least number above `counter` that leaves `transaction`, if it fits.
pub fn next(counter: Stamp, transaction: TransactionNumber) -> Option<Stamp>
    ensures { result ≡ if_fits (next_number 256 counter transaction) }
{
    first_leaving(u64::from(counter) + 1, transaction)
}

/// The stamp of a transaction: the least number that leaves it, is not below its numbers and is above every slot of the base, if it fits.
pub fn stamp(numbers: Clock, base: Clock, transaction: TransactionNumber) -> Option<Stamp>
    ensures { result ≡ if_fits (stamp_number 256 numbers base transaction) }
{
    let above = u64::from(largest(base)) + 1;
    first_leaving(above.max(u64::from(largest(numbers))), transaction)
}

/// The highest slot.
fn largest(clock: Clock) -> Stamp
    ensures { result ≡ highest clock }
{
    clock.iter().copied().max().unwrap_or(0)
}

/// The least number from `low` on that leaves the transaction, if it fits.
fn first_leaving(low: u64, transaction: TransactionNumber) -> Option<Stamp>
    requires { low < 2 ^ 33 }
    ensures { result ≡ if_fits (first_leaving 256 transaction 256 low) }
{
    let gap = (MODULUS + u64::from(transaction) - low % MODULUS) % MODULUS;
    Stamp::try_from(low + gap).ok()
}

/// The numbers of the definitions are the least numbers that the rules ask for: the contract is the theorem.
pub fn numbers_are_least()
    ensures { NumbersAreLeast }
{}
