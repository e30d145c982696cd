//! What can be asked and changed of one record, of a transaction or of a node.
#![tactic(auto)]

pub mod changes;
pub mod marks;
pub mod releasing;
pub mod rows;
pub mod states;
pub mod votes;
