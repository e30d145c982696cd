//! The rules of the catalogue: its records, and what each call answers and does.
#![tactic(auto)]

ghost use Rattle.rules.specs.Cases.{CasesHold};
ghost use Rattle.rules.specs.Promises.{PromisesKept};

pub mod nodes;
pub mod records;

/// The cases that were worked out by hand from the rules come out so: every row of the table in `specs/Cases.antt`.
pub fn cases_hold()
    ensures { CasesHold }
{}

/// After any list of calls on a freshly made catalogue, over any rule for free places, the promises of `specs/Promises.antt` are kept: the
/// contract is the theorem.
pub fn promises_kept()
    ensures { PromisesKept }
{}
