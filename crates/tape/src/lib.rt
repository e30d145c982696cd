//! Tapes: the calls of a run as bytes. docs/TAPE.md has the layout.
#![tactic(auto)]

mod decode;
pub mod kinds;
pub mod read;
pub mod record;
pub mod trips;
pub mod write;
