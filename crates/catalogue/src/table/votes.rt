//! The votes of nodes, as the tables keep them.

ghost use Rattle.std.specs.Prelude.{◌≡◌, ◌<◌, true, false};
ghost use Rattle.calls.specs.declared.answer.Answer.TheVariants.{Yes};
ghost use Rattle.clock.specs.Clocks.{marked};
ghost use Rattle.store.specs.Model.{fresh};
ghost use Rattle.rules.specs.World.{is_begun, node, transaction, is_write_node};
ghost use Rattle.rules.specs.Changes.{has_no};
ghost use Rattle.rules.specs.Voting.{yes};
ghost use Rattle.catalogue.specs.Tables.{world_of};
ghost use Rattle.catalogue.specs.Recorded.{NodeRecorded};
ghost use Rattle.catalogue.specs.Replacing.{TransactionReplaced};

use super::Table;
use calls::sizes::{NodeNumber, Stamp, TransactionNumber};
use records::changes::voting::{vote_no, vote_yes, vote_yes_with_number};
use rules::records::Node;

impl Table {
    /// Keeps a node's no.
    pub(crate) fn vote_no(&mut self, t: TransactionNumber, p: NodeNumber)
        requires begun { is_begun (world_of self.old fresh) t ≡ true }
        requires node { p < 8 }
        requires unvoted { marked (transaction (world_of self.old fresh) t).voted p ≡ false }
        ensures { TransactionReplaced self.old self.new t (has_no p (transaction (world_of self.old fresh) t)) }
    {
        self.raise(t, |x| vote_no(x, p));
    }

    /// Keeps a node's yes, and gives the transaction its number there; 0 where it writes nothing.
    pub(crate) fn vote_yes(&mut self, t: TransactionNumber, p: NodeNumber, n: Node) -> Stamp
        requires begun { is_begun (world_of self.old fresh) t ≡ true }
        requires node { NodeRecorded self.old p n }
        requires unvoted { marked (transaction (world_of self.old fresh) t).voted p ≡ false }
        ensures { let x = transaction (world_of self.old fresh) t in (Yes result, world_of self.new fresh) ≡ yes (world_of self.old fresh) t p x fresh (is_write_node (world_of self.old fresh) x p) }
    {
        if !self.writes_at(self.record(t), p) {
            self.raise(t, |x| vote_yes(x, p, n.seen));
            return 0;
        }
        let number = self.next_number(n.counter, t);
        self.raise(t, |x| vote_yes_with_number(x, p, n.seen, number));
        self.set_node(
            p,
            Node {
                counter: number,
                ..n
            },
        );
        number
    }
}
