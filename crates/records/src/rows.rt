//! Rows with an entry for each node or for each key. Past the end of a row no key is there, and no entry is changed.

ghost use Rattle.std.specs.Prelude.{◌≡◌, ◌||◌, None, nat_lt, slice_index_or, slice_set};
ghost use Rattle.std.specs.Option.{is_some};
ghost use Rattle.rules.specs.World.{how_many};

use calls::sizes::KeyNumber;

/// Whether a row has room for a key: the key is there, or fewer than eight are.
pub fn has_room<T: Copy>(row: &[Option<T>], k: KeyNumber) -> bool
    ensures { result ≡ (is_some (slice_index_or row.now k None) || nat_lt (how_many row.now) 8) }
{
    is_there(row, k) || how_many(row) < 8
}

/// Whether a key of a row is there. One expression, as `has_written` and `has_noted` of `keys`, which name the row.
pub fn is_there<T: Copy>(row: &[Option<T>], k: KeyNumber) -> bool
    ensures { result ≡ is_some (slice_index_or row.now k None) }
{
    row.get(usize::from(k)).is_some_and(|entry| entry.is_some())
}

/// Puts another entry at a place of a row.
pub fn put_entry<T: Copy>(row: &mut [T], i: u8, entry: T)
    ensures { row.new ≡ slice_set row.old i entry }
{
    if usize::from(i) < row.len() {
        row[usize::from(i)] = entry;
    }
}

/// The row with another entry at a place.
pub fn with_entry<T: Copy, const N: usize>(row: [T; N], i: u8, entry: T) -> [T; N]
    ensures { result ≡ slice_set row i entry }
{
    let mut after = row;
    put_entry(&mut after, i, entry);
    after
}

/// How many keys of a row are there.
fn how_many<T: Copy>(row: &[Option<T>]) -> usize
    ensures { result ≡ how_many row.now }
{
    row.iter().filter(|entry| entry.is_some()).count()
}
