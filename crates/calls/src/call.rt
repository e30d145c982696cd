use crate::sizes::{KeyNumber, NodeNumber, StoredValue, TransactionNumber};

/// What the catalogue can be asked. The bytes of a make's placement are lent, not copied.
///
/// A call can hold what no record of a tape may hold: a placement with more or fewer bytes than the make has keys, and a begin whose mode is neither
/// 0 nor 1.
#[derive(Clone, Copy, Debug, PartialEq, Eq)]
pub enum Call<'a> {
    /// A catalogue of so many nodes and keys. The placement has a byte for each key: bit h says that node h holds it.
    Make {
        nodes: u8,
        keys: u8,
        placement: &'a [u8],
    },
    /// A new transaction: mode 0 is a `Search`, mode 1 an `Update`. A byte and no type of two cases, so that the writer, not its caller, refuses the others.
    Begin {
        mode: u8,
    },
    Read {
        transaction: TransactionNumber,
        key: KeyNumber,
        node: NodeNumber,
    },
    Write {
        transaction: TransactionNumber,
        key: KeyNumber,
        value: StoredValue,
    },
    Offer {
        transaction: TransactionNumber,
    },
    Prepare {
        transaction: TransactionNumber,
        node: NodeNumber,
    },
    Decide {
        transaction: TransactionNumber,
    },
    Cancel {
        transaction: TransactionNumber,
    },
    Learn {
        transaction: TransactionNumber,
        node: NodeNumber,
    },
    Apply {
        node: NodeNumber,
    },
    Finish {
        transaction: TransactionNumber,
    },
}
