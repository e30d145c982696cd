//! What a node looks at and does in its store before and after a vote.
//!
//! Placement, transaction and node stay separate parameters, as in `keys`.
#![tactic(auto)]

pub mod busy;
mod marks;
pub mod overtaking;
pub mod places;
pub mod waiting;
