//! The reader of a tape.

ghost use Rattle.std.specs.Prelude.{◌≡◌, ◌<◌, map, length, IfOk};
ghost use Rattle.tape.specs.Reading.{requested, record_at, read_tape};
ghost use Rattle.tape.specs.Records.{entry_of};
ghost use Rattle.tape.specs.Trips.{LaidOut};

use crate::decode::decode;
use crate::kinds::MAX_TAPE;
use crate::record::Record;
use calls::call::Call;
use calls::refusal::Refusal;
use std::alloc::{AllocError, Global};

/// The records of a tape in their order, read in one pass. Every sequence of bytes gives such a list: what is wrong with the tape or with a record stands in it.
pub fn read(heap: Global, tape: &[u8]) -> Result<Vec<Record<'_>>, AllocError>
    ensures records { IfOk result (λ v. map entry_of v.items ≡ read_tape tape.now) }
    ensures laid_out { IfOk result (λ v. LaidOut (map entry_of v.items) tape.now) }
{
    let mut records = Vec::new(heap);
    if tape.len() > MAX_TAPE {
        records.push(Record {
            place: 0,
            content: Err(Refusal::UnreadableTape),
        })?;
        return Ok(records);
    }
    // How long a record is says where the next begins, so this goes by places and not by items.
    let mut at = 0;
    while at < tape.len() {
        let (content, next) = record_at(tape, at);
        records.push(Record { place: at, content })?;
        at = next;
    }
    Ok(records)
}

/// The record at a place inside the tape, and the place behind it. Nothing is read behind a record that is cut, so that place is the tape's end.
fn record_at(tape: &[u8], at: usize) -> (Result<Call<'_>, Refusal>, usize)
    requires { at < length tape.now }
    ensures { (requested result.0, result.1) ≡ record_at tape.now at }
{
    let &[low, high, ref rest @ ..] = &tape[at..] else {
        return (Err(Refusal::UnreadableTape), tape.len());
    };
    let len = usize::from(u16::from_le_bytes([low, high]));
    let Some(record) = rest.get(..len) else {
        return (Err(Refusal::UnreadableTape), tape.len());
    };
    let next = at + 2 + len;
    let &[low, high, ref body @ ..] = record else {
        return (Err(Refusal::BadRecord), next);
    };
    (decode(u16::from_le_bytes([low, high]), body), next)
}
