//! The catalogue as a type: its tables, and a store beside them.

use crate::table::Table;
use store::VersionStore;

pub mod applying;
pub mod deciding;
pub mod learning;
pub mod preparing;
pub mod reading;
pub mod simple;
pub mod updating;

/// A catalogue over a version store. What it answers and does is said by the contracts of its calls, over the `world` that both parts stand for.
#[derive(Drop)]
pub struct Catalogue<S: VersionStore> {
    pub(crate) table: Table,
    pub(crate) store: S,
}
