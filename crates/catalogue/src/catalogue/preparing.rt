//! Prepare: a node is asked for its vote.

ghost use Rattle.std.specs.Prelude.{◌≡◌, ◌<◌, true, false};
ghost use Rattle.clock.specs.Clocks.{marked};
ghost use Rattle.store.specs.Model.{fresh};
ghost use Rattle.rules.specs.World.{is_begun, node, transaction};
ghost use Rattle.rules.specs.Voting.{overtaken_key, vote, prepare_call};
ghost use Rattle.catalogue.specs.Tables.{world, world_of};
ghost use Rattle.catalogue.specs.Recorded.{NodeRecorded};
ghost use Rattle.catalogue.specs.Replies.{vote_answer, voted};

use super::Catalogue;
use crate::vote::Vote;
use calls::refusal::Refusal;
use calls::sizes::{NodeNumber, TransactionNumber};
use records::states::allow;
use records::votes::is_polled;
use rules::records::{Event, Node};
use store::VersionStore;
use voting::overtaking::overtaken;
use voting::places::set_places;

impl<S: VersionStore> Catalogue<S> {
    /// The vote of a node that may vote. It is a no where a key is overtaken, or where there is no place for a key.
    fn vote(&mut self, t: TransactionNumber, p: NodeNumber, n: Node) -> Vote
        requires begun { is_begun (world_of self.old.table fresh) t ≡ true }
        requires node { NodeRecorded self.old.table p n }
        requires unvoted { marked (transaction (world_of self.old.table fresh) t).voted p ≡ false }
        ensures outcome { let x = transaction (world_of self.old.table fresh) t in (vote_answer result, world S.meaning self.new) ≡ vote (S.free self.old.store) (world S.meaning self.old) t p x (overtaken_key (world S.meaning self.old) x p) }
        ensures rule { S.free self.new.store ≡ S.free self.old.store }
    {
        let placement = self.table.placement();
        let x = self.table.record(t);
        if let Some(key) = overtaken(placement, &self.store, x, p) {
            self.table.vote_no(t, p);
            return Vote::NoOvertaken { key };
        }
        // The store's refusal is a vote like the other.
        match set_places(placement, &mut self.store, x, p) {
            Ok(()) => {
                let number = self.table.vote_yes(t, p, n);
                Vote::Yes { number }
            }
            Err(key) => {
                self.table.vote_no(t, p);
                Vote::NoPlace { key }
            }
        }
    }

    /// Asks a node to vote on an offered update.
    pub fn prepare(&mut self, t: TransactionNumber, p: NodeNumber) -> Result<Vote, Refusal>
        ensures outcome { (voted result, world S.meaning self.new) ≡ prepare_call (S.free self.old.store) (world S.meaning self.old) t p }
        ensures rule { S.free self.new.store ≡ S.free self.old.store }
    {
        let x = self.table.transaction(t)?;
        let n = self.table.node(p)?;
        allow(x, Event::Prepare)?;
        if !is_polled(x, p) {
            return Err(Refusal::NotPolled);
        }
        if x.voted[usize::from(p)] {
            return Err(Refusal::AlreadyDone);
        }
        if self.table.is_busy(t, x, p) {
            return Err(Refusal::Busy);
        }
        Ok(self.vote(t, p, n))
    }
}
