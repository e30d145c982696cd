//! The catalogue: ten calls over any version store.
#![tactic(auto)]

pub mod catalogue;
pub mod decision;
pub mod make;
pub mod perform;
pub mod replies;
mod table;
pub mod vote;
