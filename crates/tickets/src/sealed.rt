//! What keeps other crates from making kinds of tickets.

/// Implemented for the kinds of this crate, and nameable nowhere else.
pub trait Sealed {}
