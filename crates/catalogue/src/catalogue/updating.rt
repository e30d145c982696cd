//! Writing to a key, and offering an update.

ghost use Rattle.std.specs.Prelude.{◌≡◌, true, false, length};
ghost use Rattle.store.specs.Model.{fresh};
ghost use Rattle.rules.specs.World.{is_begun, transaction, with_transaction};
ghost use Rattle.rules.specs.Changes.{is_now_offered};
ghost use Rattle.rules.specs.Reading.{write_call};
ghost use Rattle.rules.specs.Deciding.{polled_byte, nodes_of, offer_call};
ghost use Rattle.records.specs.Bounds.{is_committed};
ghost use Rattle.catalogue.specs.Tables.{world, world_of};
ghost use Rattle.catalogue.specs.Replies.{done, polled};

use super::Catalogue;
use calls::refusal::Refusal;
use calls::sizes::{KeyNumber, StoredValue, TransactionNumber};
use records::changes::writing::{offer, write};
use records::votes::count_nodes;
use rules::records::Event;
use store::VersionStore;

impl<S: VersionStore> Catalogue<S> {
    /// Gives an update a value for a key.
    pub fn write(
        &mut self,
        t: TransactionNumber,
        k: KeyNumber,
        value: StoredValue,
    ) -> Result<(), Refusal>
        ensures value { (done result, world S.meaning self.new) ≡ write_call (world S.meaning self.old) t k value }
        ensures rule { S.free self.new.store ≡ S.free self.old.store }
    {
        self.table.writable(t, k)?;
        self.table.update(t, |x| write(x, k, value))
    }

    /// Offers an update to the nodes that hold a key that it noted or wrote, and answers how many they are.
    pub fn offer(&mut self, t: TransactionNumber) -> Result<u8, Refusal>
        ensures value { (polled result, world S.meaning self.new) ≡ offer_call (world S.meaning self.old) t }
        ensures rule { S.free self.new.store ≡ S.free self.old.store }
    {
        self.table.asked(t, Event::Offer)?;
        Ok(self.poll(t))
    }

    /// Offers an open update to the holders of the keys that it noted or wrote, and gives how many they are.
    fn poll(&mut self, t: TransactionNumber) -> u8
        requires begun { is_begun (world_of self.old.table fresh) t ≡ true }
        requires undecided { is_committed (transaction (world_of self.old.table fresh) t).state ≡ false }
        ensures count { result ≡ length (nodes_of (polled_byte (world S.meaning self.old) (transaction (world_of self.old.table fresh) t))) }
        ensures world { let x = transaction (world_of self.old.table fresh) t in world S.meaning self.new ≡ with_transaction (world S.meaning self.old) t (is_now_offered (polled_byte (world S.meaning self.old) x) x) }
        ensures rule { S.free self.new.store ≡ S.free self.old.store }
    {
        let nodes = self.table.polled(self.table.record(t));
        self.table.update(t, |x| offer(x, nodes));
        count_nodes(nodes)
    }
}
