//! Changes of a transaction's record by a write and by an offer.

ghost use Rattle.std.specs.Prelude.{◌≡◌, false, ◌||◌, if◌then◌else◌, Ok, Err, nat_lt};
ghost use Rattle.calls.specs.declared.refusal.Refusal.TheVariants.{TooManyKeysWritten};
ghost use Rattle.rules.specs.World.{wrote, how_many};
ghost use Rattle.rules.specs.Changes.{has_written, is_now_offered};
ghost use Rattle.records.specs.Bounds.{is_committed, Keeps};

use crate::rows::{has_room, put_entry};
use calls::refusal::Refusal;
use calls::sizes::{KeyNumber, StoredValue};
use rules::records::{State, Transaction};

/// Keeps a value for a key, in place of an earlier one, of at most eight keys. Refused, it leaves the transaction as it is.
#[tactic(auto, using(crate::proofs::Bounded::keeps_same))]
pub fn write(x: &mut Transaction, k: KeyNumber, value: StoredValue) -> Result<(), Refusal>
    ensures answer { result ≡ (if wrote x.old k || nat_lt (how_many x.old.written) 8 then Ok tt else Err TooManyKeysWritten) }
    ensures value { x.new ≡ (if wrote x.old k || nat_lt (how_many x.old.written) 8 then has_written k value x.old else x.old) }
    ensures kept { Keeps x.old x.new }
{
    if !has_room(&x.written, k) {
        return Err(Refusal::TooManyKeysWritten);
    }
    put_entry(&mut x.written, k, Some(value));
    Ok(())
}

/// Offers a transaction to the nodes of a byte.
#[tactic(auto, using(crate::proofs::Bounded::keeps_same))]
pub fn offer(x: &mut Transaction, polled: u8)
    ensures value { x.new ≡ is_now_offered polled x.old }
    ensures kept { is_committed x.old.state ≡ false → Keeps x.old x.new }
{
    x.state = State::Offered;
    x.polled = polled;
}
