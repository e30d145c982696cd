//! Reading a key at a node.

ghost use Rattle.std.specs.Prelude.{◌≡◌, ◌<◌, true};
ghost use Rattle.store.specs.Model.{fresh};
ghost use Rattle.rules.specs.World.{is_begun, transaction};
ghost use Rattle.rules.specs.Reading.{read_by, read_call};
ghost use Rattle.catalogue.specs.Tables.{world, world_of};
ghost use Rattle.catalogue.specs.Replies.{found};

use super::Catalogue;
use calls::refusal::Refusal;
use calls::sizes::{KeyNumber, NodeNumber, StoredValue, TransactionNumber};
use records::changes::reading::{note_read, note_version};
use rules::records::Kind;
use store::VersionStore;
use visibility::visible;

impl<S: VersionStore> Catalogue<S> {
    /// The value of a key at a node, with its writer.
    pub fn read(
        &mut self,
        t: TransactionNumber,
        k: KeyNumber,
        p: NodeNumber,
    ) -> Result<(StoredValue, TransactionNumber), Refusal>
        ensures value { (found result, world S.meaning self.new) ≡ read_call (world S.meaning self.old) t k p }
        ensures rule { S.free self.new.store ≡ S.free self.old.store }
    {
        let (x, n) = self.table.readable(t, k, p)?;
        if let Some(value) = x.written[usize::from(k)] {
            return Ok((value, t));
        }
        if x.clock[usize::from(p)] > n.frontier {
            return Err(Refusal::NotYet);
        }
        self.read_stored(t, k, p)
    }

    /// A read that is not put off, of a key that the transaction has not written.
    fn read_stored(
        &mut self,
        t: TransactionNumber,
        k: KeyNumber,
        p: NodeNumber,
    ) -> Result<(StoredValue, TransactionNumber), Refusal>
        requires range { (p < 8) × (k < 64) }
        requires begun { is_begun (world_of self.old.table fresh) t ≡ true }
        ensures value { let x = transaction (world_of self.old.table fresh) t in (found result, world S.meaning self.new) ≡ read_by (world S.meaning self.old) t k p x x.kind }
        ensures rule { S.free self.new.store ≡ S.free self.old.store }
    {
        let x = self.table.record(t);
        let clock = self.table.clock_after(x, p);
        let seen = visible(self.table.transactions(), &self.store, x, clock, k, p);
        match x.kind {
            Kind::Search => self.table.update_within(t, |x| note_read(x, p, clock)),
            Kind::Update => {
                if !seen.newest {
                    return Err(Refusal::Overtaken);
                }
                let writer = seen.version.writer;
                self.table
                    .update_within(t, |x| note_version(x, p, clock, k, writer))?;
            }
        }
        Ok(seen.version.into())
    }
}
