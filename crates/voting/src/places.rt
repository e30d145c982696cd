//! The places that a node's store keeps for an update, and the versions that it puts into them.

ghost use Rattle.std.specs.Prelude.{◌≡◌, if◌then◌else◌};
ghost use Rattle.clock.specs.Clocks.{marked};
ghost use Rattle.store.specs.Batch.{all_aside, all_back, first_refused, if_ok};
ghost use Rattle.rules.specs.World.{World, written_at};
ghost use Rattle.rules.specs.Applying.{put_all};

use crate::marks::is_engaged;
use calls::sizes::{KeyNumber, NodeNumber, TransactionNumber};
use keys::named::written_value;
use keys::written::written_keys;
use rules::records::Transaction;
use store::batch::{give_back_all, set_aside_all};
use store::{Version, VersionStore};

/// Sets a place aside for each key that an update writes and that a node holds. Where the store has none, nothing is set aside, and its key is the
/// answer.
pub fn set_places<S: VersionStore>(
    placement: &[u8],
    store: &mut S,
    x: &Transaction,
    p: NodeNumber,
) -> Result<(), KeyNumber>
    ensures answer { (w : World) → w.placement ≡ placement.now → result ≡ first_refused (S.free store.old) (S.meaning store.old) p (written_at w x.now p) }
    ensures after { (w : World) → w.placement ≡ placement.now → S.meaning store.new ≡ if_ok result (all_aside (S.meaning store.old) p (written_at w x.now p)) (S.meaning store.old) }
    ensures rule { S.free store.new ≡ S.free store.old }
{
    let keys = written_keys(placement, x, p);
    set_aside_all(store, p, keys.as_slice())
}

/// Gives back the places that a node set aside for an update that is engaged there.
#[tactic(auto, using(crate::proofs::Back::back_if))]
pub fn give_back<S: VersionStore>(placement: &[u8], store: &mut S, p: NodeNumber, x: &Transaction)
    ensures after { (w : World) → w.placement ≡ placement.now → S.meaning store.new ≡ (if marked x.now.engaged p then all_back (S.meaning store.old) p (written_at w x.now p) else S.meaning store.old) }
    ensures rule { S.free store.new ≡ S.free store.old }
{
    if is_engaged(x, p) {
        let keys = written_keys(placement, x, p);
        give_back_all(store, p, keys.as_slice());
    }
}

/// Puts what an update wrote of some keys at a node.
fn put_all<S: VersionStore>(
    store: &mut S,
    p: NodeNumber,
    t: TransactionNumber,
    x: &Transaction,
    keys: &[KeyNumber],
)
    ensures after { S.meaning store.new ≡ put_all (S.meaning store.old) p t x.now keys.now }
    ensures rule { S.free store.new ≡ S.free store.old }
{
    for k in keys {
        let _ = store.put(
            p,
            *k,
            Version {
                value: written_value(x, *k),
                writer: t,
            },
        );
    }
}

/// Puts what the update `t`, whose record is `x`, wrote of the keys that a node holds.
pub fn put_written<S: VersionStore>(
    placement: &[u8],
    store: &mut S,
    p: NodeNumber,
    t: TransactionNumber,
    x: &Transaction,
)
    ensures after { (w : World) → w.placement ≡ placement.now → S.meaning store.new ≡ put_all (S.meaning store.old) p t x.now (written_at w x.now p) }
    ensures rule { S.free store.new ≡ S.free store.old }
{
    let keys = written_keys(placement, x, p);
    put_all(store, p, t, x, keys.as_slice());
}
