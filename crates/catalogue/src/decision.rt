//! What a decide answers.

use calls::sizes::Stamp;

/// An update is committed with a stamp, or aborted. No `Option` of a stamp: `None` would have to be read as an abort at every use.
#[derive(Clone, Copy, Debug, PartialEq, Eq)]
pub enum Decision {
    Committed { stamp: Stamp },
    Aborted,
}
