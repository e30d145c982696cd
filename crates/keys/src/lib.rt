//! The keys that a transaction names, and the nodes that hold them.
//!
//! Placement, transaction and node stay separate parameters: a caller lends just the rows that it has, and a clause speaks of every world with them.
#![tactic(auto)]

pub mod named;
pub mod placing;
pub mod polling;
pub mod writing;
pub mod written;
