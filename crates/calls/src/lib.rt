//! The vocabulary of the catalogue: what it is asked, what it answers, and why it refuses.
#![tactic(auto)]

pub mod answer;
pub mod call;
pub mod refusal;
pub mod sizes;
pub mod text;

ghost use Rattle.calls.specs.Refusals.{NumbersPairOff};

/// The numbers 1 to 21 and the refusals pair off: the contract is the theorem.
pub fn numbers_pair_off()
    ensures { NumbersPairOff }
{}
