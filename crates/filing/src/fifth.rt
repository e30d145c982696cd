// What a caller knows of each store after four versions of one key.
ghost use Rattle.std.specs.Prelude.{◌≡◌, ◌+◌, true, false, nat_lt, IfOk, if◌then◌else◌};

use roll::Roll;
use shelf::Shelf;
use std::alloc::{AllocError, Global};
use store::{Version, VersionStore};

// Whether a store without a place aside for key 7 at node 0 takes one more version of it.
fn takes_one<S: VersionStore>(store: &mut S, version: Version) -> bool
    requires { (S.meaning store.old 0 7).aside ≡ 0 }
    ensures answer { result ≡ nat_lt 0 (S.free store.old (S.meaning store.old) 0 7) }
    ensures room { S.free store.new (S.meaning store.new) 0 7 + (if result then 1 else 0) ≡ S.free store.old (S.meaning store.old) 0 7 }
    ensures aside { (S.meaning store.new 0 7).aside ≡ 0 }
{
    let _ = store.set_aside(0, 7);
    store.put(0, 7, version).is_ok()
}

// Whether such a store takes the fourth of four versions of the key, and whether it then sets a place aside for a fifth.
fn takes_fifth<S: VersionStore>(store: &mut S, version: Version) -> (bool, bool)
    requires { (S.meaning store.old 0 7).aside ≡ 0 }
    ensures { result ≡ (nat_lt 3 (S.free store.old (S.meaning store.old) 0 7), nat_lt 4 (S.free store.old (S.meaning store.old) 0 7)) }
{
    for _ in 0..3u8 {
        takes_one(store, version);
    }
    let fourth = takes_one(store, version);
    let fifth = store.set_aside(0, 7).is_ok();
    (fourth, fifth)
}

// A new shelf does the one and not the other.
pub fn shelf_takes_fifth(heap: Global, version: Version) -> Result<(bool, bool), AllocError>
    ensures { IfOk result (λ taken. taken ≡ (true, false)) }
{
    let mut shelf = Shelf::new(heap)?;
    Ok(takes_fifth(&mut shelf, version))
}

// A new roll does both.
pub fn roll_takes_fifth(heap: Global, version: Version) -> Result<(bool, bool), AllocError>
    ensures { IfOk result (λ taken. taken ≡ (true, true)) }
{
    let mut roll = Roll::new(heap)?;
    Ok(takes_fifth(&mut roll, version))
}
