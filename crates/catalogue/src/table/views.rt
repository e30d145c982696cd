//! What the tables say of a transaction and of a node.

ghost use Rattle.std.specs.Prelude.{◌≡◌, true, IfSome};
ghost use Rattle.store.specs.Model.{Meaning, fresh};
ghost use Rattle.rules.specs.World.{is_begun, transaction, is_write_node};
ghost use Rattle.rules.specs.Reading.{clock_after};
ghost use Rattle.rules.specs.Voting.{busy};
ghost use Rattle.rules.specs.Deciding.{polled_byte};
ghost use Rattle.rules.specs.Applying.{least_waiting};
ghost use Rattle.records.specs.Bounds.{most, ClockWithin};
ghost use Rattle.catalogue.specs.Tables.{world_of};

use super::Table;
use calls::sizes::{NodeNumber, TransactionNumber};
use clock::Clock;
use keys::polling::polled;
use keys::writing::writes_at;
use rules::records::Transaction;
use visibility::clock_after;
use voting::busy::is_busy;
use voting::waiting::least_waiting;

impl Table {
    /// The transactions, in the order of begin.
    pub(crate) fn transactions(&self) -> &[Transaction]
        ensures { result.now ≡ self.now.transactions.items }
    {
        self.transactions.as_slice()
    }

    /// For each key the byte of its holders.
    pub(crate) fn placement(&self) -> &[u8]
        ensures { result.now ≡ self.now.placement.items }
    {
        self.placement.as_slice()
    }

    /// Whether a node holds a key that a transaction writes.
    pub(crate) fn writes_at(&self, x: &Transaction, p: NodeNumber) -> bool
        ensures { (m : Meaning) → result ≡ is_write_node (world_of self.now m) x.now p }
    {
        writes_at(&self.placement, x, p)
    }

    /// The byte of all holders of the keys that a transaction noted or wrote.
    pub(crate) fn polled(&self, x: &Transaction) -> u8
        ensures { (m : Meaning) → result ≡ polled_byte (world_of self.now m) x.now }
    {
        polled(&self.placement, x)
    }

    /// The clock of a transaction after a read at a node.
    pub(crate) fn clock_after(&self, x: &Transaction, p: NodeNumber) -> Clock
        requires { ClockWithin (most self.now.transactions.items) x.now.clock }
        ensures value { (m : Meaning) → result ≡ clock_after (world_of self.now m) x.now p }
        ensures within { ClockWithin (most self.now.transactions.items) result }
    {
        clock_after(x, p, &self.transactions)
    }

    /// Whether another update that is engaged at a node conflicts with a transaction there.
    pub(crate) fn is_busy(&self, t: TransactionNumber, x: &Transaction, p: NodeNumber) -> bool
        requires { x.now ≡ transaction (world_of self.now fresh) t }
        ensures { (m : Meaning) → result ≡ busy (world_of self.now m) t p }
    {
        is_busy(&self.transactions, &self.placement, t, x, p)
    }

    /// The update that waits at a node with the least number.
    pub(crate) fn least_waiting(&self, p: NodeNumber) -> Option<TransactionNumber>
        ensures value { (m : Meaning) → result ≡ least_waiting (world_of self.now m) p }
        ensures begun { IfSome result (λ t. is_begun (world_of self.now fresh) t ≡ true) }
    {
        least_waiting(&self.transactions, &self.placement, p)
    }
}
