// A version store with four places for each chain; every call takes constant time.
#![tactic(auto)]

mod slots;
mod table;

pub use table::Shelf;
