//! Whether a node holds a newer version than an update has read.

ghost use Rattle.std.specs.Prelude.{◌≡◌, ◌<◌};
ghost use Rattle.rules.specs.World.{World};
ghost use Rattle.rules.specs.Voting.{newest_writer, overtaken_at, overtaken_key};

use calls::sizes::{KeyNumber, NodeNumber, TransactionNumber};
use keys::placing::holds;
use rules::records::Transaction;
use store::VersionStore;

/// The writer of the newest version of a key at a node.
fn newest_writer<S: VersionStore>(store: &S, p: NodeNumber, k: KeyNumber) -> TransactionNumber
    requires { (p < 8) × (k < 64) }
    ensures { result ≡ newest_writer (S.meaning store.now p k).versions }
{
    store.newest(p, k).map_or(0, |(_, writer)| writer)
}

/// Whether a node holds a newer version of a key than the one that an update has noted.
fn is_overtaken<S: VersionStore>(
    placement: &[u8],
    store: &S,
    x: &Transaction,
    p: NodeNumber,
    k: KeyNumber,
) -> bool
    requires { k < 64 }
    ensures { (w : World) → w.placement ≡ placement.now → w.store ≡ S.meaning store.now → result ≡ overtaken_at w x.now p k }
{
    // No `is_some_and`: its closure would need a clause of its own on `k`.
    let Some(writer) = x.noted[usize::from(k)] else {
        return false;
    };
    holds(placement, p, k) && newest_writer(store, p, k) != writer
}

/// The lowest key that an update has noted and of which a node holds a newer version.
pub fn overtaken<S: VersionStore>(
    placement: &[u8],
    store: &S,
    x: &Transaction,
    p: NodeNumber,
) -> Option<KeyNumber>
    ensures { (w : World) → w.placement ≡ placement.now → w.store ≡ S.meaning store.now → result ≡ overtaken_key w x.now p }
{
    (0..64).find(|k| is_overtaken(placement, store, x, p, *k))
}
