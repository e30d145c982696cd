//! The tables of a catalogue: by node, by transaction and by key, none of which runs beside another.
//!
//! A record of a transaction is lent or changed in place, and a node's number goes with a copy of its record; whose they are is said by one clause each, `Recorded` and `NodeRecorded`.

ghost use Rattle.std.specs.Prelude.{◌≤◌, vec_len, vec_capacity};
ghost use Rattle.records.specs.Bounds.{most, NodesWithin, AllCollectedWithin, AllDecidedWithin};

use rules::records::{Node, Transaction};

pub mod access;
pub mod commits;
pub mod numbers;
pub mod views;
pub mod votes;

/// The nodes; the transactions in the order of begin, with room for all that there can be; and for each key the byte of its holders.
#[derive(Drop)]
pub struct Table {
    nodes: Vec<Node>,
    transactions: Vec<Transaction>,
    placement: Vec<u8>,
    ghost some_nodes: { 1 ≤ vec_len nodes },
    ghost few_nodes: { vec_len nodes ≤ 8 },
    ghost few_keys: { vec_len placement ≤ 64 },
    ghost room: { 255 ≤ vec_capacity transactions },
    ghost few_transactions: { vec_len transactions ≤ 255 },
    ghost nodes_within: { NodesWithin (most transactions.items) nodes.items },
    ghost collected_within: { AllCollectedWithin (most transactions.items) transactions.items },
    ghost decided_within: { AllDecidedWithin (most transactions.items) transactions.items },
}
