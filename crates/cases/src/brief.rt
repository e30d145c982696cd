//! The calls by short names.

use calls::call::Call;

pub(crate) fn make(nodes: u8, keys: u8, placement: &[u8]) -> Call<'_> {
    Call::Make {
        nodes,
        keys,
        placement,
    }
}

/// Begins a `Search`.
pub(crate) fn reader<'a>() -> Call<'a> {
    Call::Begin { mode: 0 }
}

pub(crate) fn update<'a>() -> Call<'a> {
    Call::Begin { mode: 1 }
}

pub(crate) fn read<'a>(transaction: u8, key: u8, node: u8) -> Call<'a> {
    Call::Read {
        transaction,
        key,
        node,
    }
}

pub(crate) fn write_key<'a>(transaction: u8, key: u8, value: u64) -> Call<'a> {
    Call::Write {
        transaction,
        key,
        value,
    }
}

pub(crate) fn offer<'a>(transaction: u8) -> Call<'a> {
    Call::Offer { transaction }
}

pub(crate) fn prepare<'a>(transaction: u8, node: u8) -> Call<'a> {
    Call::Prepare { transaction, node }
}

pub(crate) fn decide<'a>(transaction: u8) -> Call<'a> {
    Call::Decide { transaction }
}

pub(crate) fn cancel<'a>(transaction: u8) -> Call<'a> {
    Call::Cancel { transaction }
}

pub(crate) fn learn<'a>(transaction: u8, node: u8) -> Call<'a> {
    Call::Learn { transaction, node }
}

pub(crate) fn apply<'a>(node: u8) -> Call<'a> {
    Call::Apply { node }
}

pub(crate) fn finish<'a>(transaction: u8) -> Call<'a> {
    Call::Finish { transaction }
}
