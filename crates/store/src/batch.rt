// Several keys of one node at once, over any store.
ghost use Rattle.std.specs.Prelude.{◌≡◌, Err};
ghost use Rattle.store.specs.Model.{back_after};
ghost use Rattle.store.specs.Batch.{all_aside, all_back, first_refused, if_ok};

use super::VersionStore;

// Gives back one place for each of the keys, as far as places are set aside there.
#[tactic(auto, using(crate::proofs::Batches::back_more))]
pub fn give_back_all<S: VersionStore>(store: &mut S, node: u8, keys: &[u8])
    ensures after { S.meaning store.new ≡ all_back (S.meaning store.old) node keys.now }
    ensures rule { S.free store.new ≡ S.free store.old }
{
    for &key in keys {
        let _ = store.give_back(node, key);
    }
}

// Sets one place aside for each of the keys, in the order of the list. Where the store refuses one, those already set
// aside are given back, and that key is the answer.
#[tactic(auto, using(crate::proofs::Batches::aside_turn))]
pub fn set_aside_all<S: VersionStore>(store: &mut S, node: u8, keys: &[u8]) -> Result<(), u8>
    ensures answer { result ≡ first_refused (S.free store.old) (S.meaning store.old) node keys.now }
    ensures after { S.meaning store.new ≡ if_ok result (all_aside (S.meaning store.old) node keys.now) (S.meaning store.old) }
    ensures rule { S.free store.new ≡ S.free store.old }
{
    for (i, &key) in keys.iter().enumerate() {
        // No `?` here: what was set aside is given back before the answer.
        if store.set_aside(node, key).is_err() {
            give_back_all(store, node, &keys[..i]);
            return Err(key);
        }
    }
    Ok(())
}
