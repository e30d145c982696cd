//! Changes of a transaction's record. Each says what the rules name the change, and how high the numbers of the record can be after it.

ghost use Rattle.std.specs.Prelude.{◌≡◌, false};
ghost use Rattle.rules.specs.World.{new_transaction};
ghost use Rattle.rules.specs.Changes.{becomes};
ghost use Rattle.records.specs.Bounds.{is_committed, Keeps};

use rules::records::{Kind, State, Transaction};

pub mod reading;
pub mod voting;
pub mod writing;

// `Keeps` is one word in the contract of each change: it is said of a record before and after, which no invariant of the type could see.

/// A transaction as it begins.
pub fn new_transaction(kind: Kind) -> Transaction
    ensures { result ≡ new_transaction kind }
{
    Transaction {
        kind,
        state: State::Open,
        clock: [0; 8],
        read: [false; 8],
        noted: [None; 64],
        written: [None; 64],
        polled: 0,
        voted: [false; 8],
        refused: false,
        engaged: [false; 8],
        numbers: [0; 8],
        votes: [0; 8],
        learned: [false; 8],
        applied: [false; 8],
        stamp: 0,
        commit: [0; 8],
    }
}

/// Ends a transaction in a state. Where neither state is a commit, no number rises.
#[tactic(auto, using(crate::proofs::Bounded::keeps_same))]
pub fn end(x: &mut Transaction, state: State)
    ensures value { x.new ≡ becomes state x.old }
    ensures kept { is_committed x.old.state ≡ false → is_committed state ≡ false → Keeps x.old x.new }
{
    x.state = state;
}
