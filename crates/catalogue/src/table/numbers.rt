//! The numbers that nodes give.

ghost use Rattle.std.specs.Prelude.{◌≡◌, ◌+◌, ◌≤◌};
ghost use Rattle.clock.specs.Numbers.{next_number};
ghost use Rattle.records.specs.Bounds.{most};

use super::Table;
use calls::sizes::{Stamp, TransactionNumber};
use clock::next;

impl Table {
    /// The next number for a transaction after a counter of these tables.
    pub(crate) fn next_number(&self, counter: Stamp, t: TransactionNumber) -> Stamp
        requires { counter ≤ most self.now.transactions.items }
        ensures value { result ≡ next_number 256 counter t }
        ensures bound { result ≤ most self.now.transactions.items + 256 }
    {
        next(counter, t).unwrap()
    }
}
