// A version store with one roll of 512 places for all chains.
#![tactic(auto)]

mod entry;
mod head;
mod table;

pub use table::Roll;
