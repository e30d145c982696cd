//! Apply: a node installs the update that waits there with the least number.

ghost use Rattle.std.specs.Prelude.{◌≡◌, ◌<◌, true};
ghost use Rattle.store.specs.Model.{fresh};
ghost use Rattle.rules.specs.World.{is_begun, node, transaction};
ghost use Rattle.rules.specs.Applying.{applied_world, apply_call};
ghost use Rattle.catalogue.specs.Tables.{world, world_of};
ghost use Rattle.catalogue.specs.Recorded.{NodeRecorded};
ghost use Rattle.catalogue.specs.Replies.{applied};

use super::Catalogue;
use calls::refusal::Refusal;
use calls::sizes::{NodeNumber, TransactionNumber};
use records::releasing::{advanced, apply};
use rules::records::Node;
use store::VersionStore;
use voting::places::put_written;

impl<S: VersionStore> Catalogue<S> {
    /// Applies at a node the update that waits there with the least number, and gives the update.
    pub fn apply(&mut self, p: NodeNumber) -> Result<TransactionNumber, Refusal>
        ensures call { (applied result, world S.meaning self.new) ≡ apply_call (world S.meaning self.old) p }
        ensures rule { S.free self.new.store ≡ S.free self.old.store }
    {
        let n = self.table.node(p)?;
        let t = self.table.least_waiting(p).ok_or(Refusal::NothingToApply)?;
        let x = self.table.record(t);
        if !x.learned[usize::from(p)] {
            return Err(Refusal::NotLearned);
        }
        self.install(t, p, n);
        Ok(t)
    }

    /// Puts what an update wrote at a node, and releases the update there.
    fn install(&mut self, t: TransactionNumber, p: NodeNumber, n: Node)
        requires begun { is_begun (world_of self.old.table fresh) t ≡ true }
        requires node { NodeRecorded self.old.table p n }
        ensures world { world S.meaning self.new ≡ applied_world (world S.meaning self.old) t p (transaction (world_of self.old.table fresh) t) }
        ensures rule { S.free self.new.store ≡ S.free self.old.store }
    {
        let x = self.table.record(t);
        let (stamp, commit) = (x.stamp, x.commit);
        put_written(self.table.placement(), &mut self.store, p, t, x);
        self.table.update(t, |x| apply(x, p));
        self.table.set_node(p, advanced(n, stamp, commit));
    }
}
