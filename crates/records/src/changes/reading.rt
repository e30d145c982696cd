//! Changes of a transaction's record by a read.

ghost use Rattle.std.specs.Prelude.{◌≡◌, ℕ, if◌then◌else◌, Ok, Err};
ghost use Rattle.calls.specs.declared.refusal.Refusal.TheVariants.{TooManyKeysRead};
ghost use Rattle.rules.specs.Changes.{has_read, has_noted};
ghost use Rattle.rules.specs.Reading.{can_note};
ghost use Rattle.records.specs.Bounds.{raised_by, ClockWithin, TransactionWithin, Keeps};

use crate::rows::{has_room, is_there, put_entry};
use calls::refusal::Refusal;
use calls::sizes::{KeyNumber, NodeNumber, TransactionNumber};
use clock::Clock;
use rules::records::Transaction;

/// Notes a read at a node, with this clock after it.
#[tactic(auto, unfolding(crate::specs::Bounds::raised_by))]
pub fn note_read(x: &mut Transaction, p: NodeNumber, clock: Clock)
    ensures value { x.new ≡ has_read p clock x.old }
    ensures same { raised_by x.new ≡ raised_by x.old }
    ensures within { (b : ℕ) → TransactionWithin b x.old → ClockWithin b clock → TransactionWithin b x.new }
{
    x.clock = clock;
    put_entry(&mut x.read, p, true);
}

/// Notes the writer of a version that was read, once a key and of at most eight keys. Refused, it leaves the transaction as it is.
#[tactic(auto, using(crate::proofs::Bounded::keeps_same))]
pub fn note_writer(
    x: &mut Transaction,
    k: KeyNumber,
    writer: TransactionNumber,
) -> Result<(), Refusal>
    ensures answer { result ≡ (if can_note x.old k then Ok tt else Err TooManyKeysRead) }
    ensures value { x.new ≡ (if can_note x.old k then has_noted k writer x.old else x.old) }
    ensures kept { Keeps x.old x.new }
{
    if !has_room(&x.noted, k) {
        return Err(Refusal::TooManyKeysRead);
    }
    if !is_there(&x.noted, k) {
        put_entry(&mut x.noted, k, Some(writer));
    }
    Ok(())
}

/// Notes a read at a node by an update, with this clock after it and the writer of the version that it read. Refused, it leaves the update as it is.
pub fn note_version(
    x: &mut Transaction,
    p: NodeNumber,
    clock: Clock,
    k: KeyNumber,
    writer: TransactionNumber,
) -> Result<(), Refusal>
    ensures answer { result ≡ (if can_note x.old k then Ok tt else Err TooManyKeysRead) }
    ensures value { x.new ≡ (if can_note x.old k then has_noted k writer (has_read p clock x.old) else x.old) }
    ensures same { raised_by x.new ≡ raised_by x.old }
    ensures within { (b : ℕ) → TransactionWithin b x.old → ClockWithin b clock → TransactionWithin b x.new }
{
    note_writer(x, k, writer)?;
    note_read(x, p, clock);
    Ok(())
}
