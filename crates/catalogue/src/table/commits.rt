//! The commit of an update, as the tables keep it.

ghost use Rattle.std.specs.Prelude.{◌≡◌, true, false};
ghost use Rattle.store.specs.Model.{Meaning, fresh};
ghost use Rattle.rules.specs.World.{is_begun, transaction};
ghost use Rattle.rules.specs.Changes.{is_committed as has_committed};
ghost use Rattle.rules.specs.Deciding.{stamp_of, stamped};
ghost use Rattle.records.specs.Bounds.{is_committed};
ghost use Rattle.catalogue.specs.Tables.{world_of};
ghost use Rattle.catalogue.specs.Replacing.{TransactionReplaced};

use super::Table;
use calls::sizes::{Stamp, TransactionNumber};
use stamping::commit;

impl Table {
    /// Commits an update that is not decided yet, and gives its stamp.
    pub(crate) fn commit(&mut self, t: TransactionNumber) -> Stamp
        requires begun { is_begun (world_of self.old fresh) t ≡ true }
        requires undecided { is_committed (transaction (world_of self.old fresh) t).state ≡ false }
        ensures stamp { (m : Meaning) → result ≡ stamp_of (world_of self.old m) t (transaction (world_of self.old fresh) t) }
        ensures committed { (m : Meaning) → let x = transaction (world_of self.old fresh) t in let stamp = stamp_of (world_of self.old m) t x in TransactionReplaced self.old self.new t (has_committed stamp (stamped (world_of self.old m) x stamp) x) }
    {
        commit(
            &self.placement,
            t,
            &mut self.transactions[usize::from(t) - 1],
        )
        .unwrap()
    }
}
