#![tactic(auto)]

ghost use Rattle.history.specs.Statements.{HistoriesStand};
ghost use Rattle.history.specs.Example.{MoveHalfApplied};

/// Every history of the protocol stands: it is serializable, in the senses that `specs/Statements.antt` lists.
pub fn histories_stand()
    ensures { HistoriesStand }
{}

/// A history with two conflicting commits, a Search that belongs between them, and a node where its reads are put off.
pub fn move_half_applied()
    ensures { MoveHalfApplied }
{}
