//! The calls that change a state and nothing else.

ghost use Rattle.std.specs.Prelude.{◌≡◌};
ghost use Rattle.rules.specs.Deciding.{begin_call, cancel_call, finish_call};
ghost use Rattle.catalogue.specs.Tables.{world};
ghost use Rattle.catalogue.specs.Replies.{begun, done};

use super::Catalogue;
use calls::refusal::Refusal;
use calls::sizes::TransactionNumber;
use records::changes::end;
use rules::records::{Event, Kind, State};
use store::VersionStore;

impl<S: VersionStore> Catalogue<S> {
    /// Opens a transaction of a kind, and gives its number.
    pub fn begin(&mut self, kind: Kind) -> Result<TransactionNumber, Refusal>
        ensures step { (begun result, world S.meaning self.new) ≡ begin_call (world S.meaning self.old) kind }
        ensures rule { S.free self.new.store ≡ S.free self.old.store }
    {
        let t = TransactionNumber::try_from(self.table.begun() + 1).map_err(
            |_| Refusal::NumbersUsedUp,
        )?;
        self.table.begin(kind);
        Ok(t)
    }

    // `cancel` and `finish` differ in two constants; one function under both would need a contract longer than their bodies.

    /// Aborts an open or offered update.
    pub fn cancel(&mut self, t: TransactionNumber) -> Result<(), Refusal>
        ensures step { (done result, world S.meaning self.new) ≡ cancel_call (world S.meaning self.old) t }
        ensures rule { S.free self.new.store ≡ S.free self.old.store }
    {
        self.table.asked(t, Event::Cancel)?;
        self.table.update(t, |x| end(x, State::Aborted));
        Ok(())
    }

    /// Ends a `Search`.
    pub fn finish(&mut self, t: TransactionNumber) -> Result<(), Refusal>
        ensures step { (done result, world S.meaning self.new) ≡ finish_call (world S.meaning self.old) t }
        ensures rule { S.free self.new.store ≡ S.free self.old.store }
    {
        self.table.asked(t, Event::Finish)?;
        self.table.update(t, |x| end(x, State::Finished));
        Ok(())
    }
}
