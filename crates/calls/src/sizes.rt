//! How wide each number of the vocabulary is.

/// A transaction, in the order of begin. No transaction has the number 0, which as a writer names the first version of a key.
pub type TransactionNumber = u8;

/// A node, from 0.
pub type NodeNumber = u8;

/// A key, from 0.
pub type KeyNumber = u8;

/// What is stored under a key.
pub type StoredValue = u64;

/// A stamp of a commit, or the number that a node gives an update with its vote.
pub type Stamp = u32;
