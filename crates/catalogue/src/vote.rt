//! How a node votes on an offered update.

use calls::sizes::{KeyNumber, Stamp};

/// A node's vote.
#[derive(Clone, Copy, Debug, PartialEq, Eq)]
pub enum Vote {
    /// The update's number at the node, or 0 where it writes nothing there: no `Option`, since 0 is what the protocol answers.
    Yes { number: Stamp },
    /// The lowest key that the update has noted and of which the node holds a newer version.
    NoOvertaken { key: KeyNumber },
    /// The lowest key that the update writes and for which the node has no place left.
    NoPlace { key: KeyNumber },
}
