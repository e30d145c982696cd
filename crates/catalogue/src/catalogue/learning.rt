//! Learn: a node is told what was decided.

ghost use Rattle.std.specs.Prelude.{◌≡◌, ◌<◌, true};
ghost use Rattle.store.specs.Model.{fresh};
ghost use Rattle.rules.specs.World.{is_begun, is_write_node, node, transaction};
ghost use Rattle.rules.specs.Applying.{learn_commit, learn_abort, learn_call};
ghost use Rattle.catalogue.specs.Tables.{world, world_of};
ghost use Rattle.catalogue.specs.Recorded.{NodeRecorded};
ghost use Rattle.catalogue.specs.Replies.{done};

use super::Catalogue;
use calls::refusal::Refusal;
use calls::sizes::{NodeNumber, TransactionNumber};
use records::releasing::{counted, has_seen, learn_number, release};
use rules::records::{Node, State};
use store::VersionStore;
use voting::places::give_back;

impl<S: VersionStore> Catalogue<S> {
    /// Lets a node that an update polled learn its decision.
    pub fn learn(&mut self, t: TransactionNumber, p: NodeNumber) -> Result<(), Refusal>
        ensures call { (done result, world S.meaning self.new) ≡ learn_call (world S.meaning self.old) t p }
        ensures rule { S.free self.new.store ≡ S.free self.old.store }
    {
        let (x, n) = self.table.learnable(t, p)?;
        match x.state {
            State::Committed => self.learn_commit(t, p, n),
            State::Aborted => self.learn_abort(t, p),
            State::Open | State::Offered | State::Finished => return Err(Refusal::WrongState),
        }
        Ok(())
    }

    /// Lets a node learn a commit. A write node takes the stamp for the update's number; another node releases the update.
    fn learn_commit(&mut self, t: TransactionNumber, p: NodeNumber, n: Node)
        requires begun { is_begun (world_of self.old.table fresh) t ≡ true }
        requires node { NodeRecorded self.old.table p n }
        ensures world { let x = transaction (world_of self.old.table fresh) t in world S.meaning self.new ≡ learn_commit (world S.meaning self.old) t p x (is_write_node (world S.meaning self.old) x p) }
        ensures rule { S.free self.new.store ≡ S.free self.old.store }
    {
        let x = self.table.record(t);
        if self.table.writes_at(x, p) {
            let stamp = x.stamp;
            self.table.update(t, |x| learn_number(x, p));
            self.table.set_node(p, counted(n, stamp));
        } else {
            let commit = x.commit;
            self.table.update(t, |x| release(x, p));
            self.table.set_node(p, has_seen(n, commit));
        }
    }

    /// Lets a node learn an abort: it gives back the places that it set aside, and releases the update.
    fn learn_abort(&mut self, t: TransactionNumber, p: NodeNumber)
        requires small { p < 8 }
        requires begun { is_begun (world_of self.old.table fresh) t ≡ true }
        ensures world { world S.meaning self.new ≡ learn_abort (world S.meaning self.old) t p (transaction (world_of self.old.table fresh) t) }
        ensures rule { S.free self.new.store ≡ S.free self.old.store }
    {
        give_back(
            self.table.placement(),
            &mut self.store,
            p,
            self.table.record(t),
        );
        self.table.update(t, |x| release(x, p));
    }
}
