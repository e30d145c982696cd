//! The keys that a transaction has noted and written.

ghost use Rattle.std.specs.Prelude.{◌≡◌, None, slice_index_or};
ghost use Rattle.rules.specs.World.{noted, wrote, written_value};

use calls::sizes::{KeyNumber, StoredValue};
use rules::records::Transaction;

/// What a row has for a key; nothing for what is no key.
fn entry_at<T: Copy>(row: &[Option<T>], k: KeyNumber) -> Option<T>
    ensures { result ≡ slice_index_or row.now k None }
{
    *row.get(usize::from(k))?
}

// `has_written` and `has_noted` differ in the row that they look at, and `records::rows::is_there` looks at any: one expression each, which a function of the row would not shorten.

/// Whether a transaction has written a key.
pub fn has_written(x: &Transaction, k: KeyNumber) -> bool
    ensures { result ≡ wrote x.now k }
{
    entry_at(&x.written, k).is_some()
}

/// Whether an update has noted a key.
pub fn has_noted(x: &Transaction, k: KeyNumber) -> bool
    ensures { result ≡ noted x.now k }
{
    entry_at(&x.noted, k).is_some()
}

/// The value that a transaction wrote for a key, or 0.
pub fn written_value(x: &Transaction, k: KeyNumber) -> StoredValue
    ensures { result ≡ written_value x.now k }
{
    entry_at(&x.written, k).unwrap_or(0)
}
