use crate::refusal::Refusal;
use crate::sizes::{KeyNumber, Stamp, StoredValue, TransactionNumber};

/// What the catalogue answers to a call, with the values of that answer.
#[derive(Clone, Copy, Debug, PartialEq, Eq)]
pub enum Answer {
    /// A make, write, cancel, learn or finish was carried out.
    Done,
    /// The transaction that a begin opened.
    Begun {
        transaction: TransactionNumber,
    },
    /// The value that a read gives, and the transaction that wrote it: 0 for the first version.
    Found {
        value: StoredValue,
        writer: TransactionNumber,
    },
    /// How many nodes an offer polls.
    Polled {
        nodes: u8,
    },
    /// A node votes yes, and gives the update this number, or 0 where the update writes no key that the node holds. A number throughout, as it is printed.
    Yes {
        number: Stamp,
    },
    /// A node votes no: this key, which the update had read, has a newer version there.
    NoOvertaken {
        key: KeyNumber,
    },
    /// A node votes no: its store has no place for a version of this key.
    NoPlace {
        key: KeyNumber,
    },
    /// A decide commits the update with this stamp.
    Committed {
        stamp: Stamp,
    },
    /// A decide aborts the update.
    Aborted,
    /// The update that an apply installed.
    Applied {
        transaction: TransactionNumber,
    },
    /// The call is refused, and changed nothing.
    Refused {
        refusal: Refusal,
    },
}
