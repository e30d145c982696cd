//! In which state a transaction may be asked what.

ghost use Rattle.std.specs.Prelude.{◌≡◌, true, false, if◌then◌else◌, Ok, Err, OnOk};
ghost use Rattle.calls.specs.declared.refusal.Refusal.TheVariants.{WrongState};
ghost use Rattle.rules.specs.Changes.{may};
ghost use Rattle.records.specs.Bounds.{is_committed, for_undecided};

use calls::refusal::Refusal;
use rules::records::{Event, Kind, State, Transaction};

// That a record is not committed is one word in a few contracts, and no type of record: a call is asked of a record in any state, and `allow` is the test.

/// Whether a transaction is in the state that an event needs.
pub fn allow(x: &Transaction, event: Event) -> Result<(), Refusal>
    ensures value { result ≡ (if may event x.now then Ok tt else Err WrongState) }
    ensures undecided { OnOk result (for_undecided event ≡ true → is_committed x.now.state ≡ false) }
{
    match (event, x.kind, x.state) {
        (Event::Read, _, State::Open) => Ok(()),
        (Event::Write | Event::Offer | Event::Cancel, Kind::Update, State::Open) => Ok(()),
        (Event::Finish, Kind::Search, State::Open) => Ok(()),
        (Event::Prepare | Event::Decide, _, State::Offered) => Ok(()),
        (Event::Cancel, Kind::Update, State::Offered) => Ok(()),
        (Event::Learn, _, State::Committed | State::Aborted) => Ok(()),
        _ => Err(Refusal::WrongState),
    }
}
