//! Decide: an update is committed or aborted by the votes of its nodes.

ghost use Rattle.std.specs.Prelude.{◌≡◌};
ghost use Rattle.rules.specs.Deciding.{decide_call};
ghost use Rattle.catalogue.specs.Tables.{world};
ghost use Rattle.catalogue.specs.Replies.{decided};

use super::Catalogue;
use crate::decision::Decision;
use calls::refusal::Refusal;
use calls::sizes::TransactionNumber;
use records::changes::end;
use records::votes::all_voted;
use rules::records::{Event, State};
use store::VersionStore;

impl<S: VersionStore> Catalogue<S> {
    /// Aborts an offered update that a node voted against, and commits one that all polled nodes voted for.
    pub fn decide(&mut self, t: TransactionNumber) -> Result<Decision, Refusal>
        ensures call { (decided result, world S.meaning self.new) ≡ decide_call (world S.meaning self.old) t }
        ensures rule { S.free self.new.store ≡ S.free self.old.store }
    {
        let x = self.table.asked(t, Event::Decide)?;
        if x.refused {
            self.table.update(t, |x| end(x, State::Aborted));
            return Ok(Decision::Aborted);
        }
        if !all_voted(x) {
            return Err(Refusal::VotesOutstanding);
        }
        let stamp = self.table.commit(t);
        Ok(Decision::Committed { stamp })
    }
}
