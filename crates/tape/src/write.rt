//! The writer of a tape.

ghost use Rattle.std.specs.Prelude.{◌≡◌, ◌+◌, ◌<◌, ◌≤◌, ◌++◌, map, length, take, IfOk, nat_le};
ghost use Rattle.calls.specs.Requests.{request};
ghost use Rattle.tape.specs.Kinds.{number_of};
ghost use Rattle.tape.specs.Layout.{longest, record_of, record_with, tape_of};
ghost use Rattle.tape.specs.Reading.{read_tape};
ghost use Rattle.tape.specs.Trips.{Fit, AllFit, placed};
ghost use Rattle.tape.specs.Writing.{writable, all_writable, over, written};

use crate::kinds::{MAX_TAPE, RecordKind};
use calls::call::Call;
use calls::refusal::Refusal;

/// Writes the tape of some calls to the front of a buffer, and gives its length. A refusal leaves the buffer as it was.
pub fn write(calls: &[Call<'_>], buffer: &mut [u8]) -> Result<usize, Refusal>
    ensures written { (result, buffer.new) ≡ written (map request calls.now) buffer.old }
    ensures reads_back { IfOk result (λ n. read_tape (take n buffer.new) ≡ placed 0 (map request calls.now)) }
{
    if !are_writable(calls) {
        return Err(Refusal::BadRecord);
    }
    if !fits(calls, buffer.len().min(MAX_TAPE)) {
        return Err(Refusal::TapeFull);
    }
    Ok(put_calls(calls, buffer))
}

/// Whether the reader takes the record of a call.
fn is_writable(call: &Call<'_>) -> bool
    ensures { result ≡ writable (request call.now) }
{
    match call {
        Call::Make {
            keys,
            placement,
            ..
        } => placement.len() == usize::from(*keys),
        Call::Begin { mode } => *mode < 2,
        _ => true,
    }
}

fn are_writable(calls: &[Call<'_>]) -> bool
    ensures { result ≡ all_writable (map request calls.now) }
{
    calls.iter().all(is_writable)
}

/// How many bytes the record of a call has.
fn record_length(call: &Call<'_>) -> usize
    ensures { result ≡ length (record_of (request call.now)) }
{
    match call {
        Call::Make { placement, .. } => 6 + placement.len(),
        Call::Write { .. } => 14,
        Call::Read { .. } => 7,
        Call::Prepare { .. } | Call::Learn { .. } => 6,
        Call::Begin { .. }
        | Call::Offer { .. }
        | Call::Decide { .. }
        | Call::Cancel { .. }
        | Call::Apply { .. }
        | Call::Finish { .. } => 5,
    }
}

/// Whether the tape of some calls is no longer than the room.
fn fits(calls: &[Call<'_>], room: usize) -> bool
    ensures { result ≡ nat_le (length (tape_of (map request calls.now))) room }
{
    calls
        .iter()
        .try_fold(room, |left, call| left.checked_sub(record_length(call)))
        .is_some()
}

/// A buffer, and the place in it behind what is written. (The writes of the library's cursor answer a result, which could not fail here.)
#[derive(Drop)]
struct Cursor<'a> {
    buffer: &'a mut [u8],
    at: usize,
}

// That a cursor stays on its buffer is a clause of each method: it is said of a cursor before and after, which no invariant of the type could see.
impl Cursor<'_> {
    fn put(&mut self, bytes: &[u8])
        requires { self.old.at + length bytes.now ≤ length self.old.buffer.now }
        ensures same_buffer { self.new.buffer.ghost_name ≡ self.old.buffer.ghost_name }
        ensures after { self.new.buffer.now ≡ over self.old.buffer.now self.old.at bytes.now }
        ensures place { self.new.at ≡ self.old.at + length bytes.now }
    {
        let end = self.at + bytes.len();
        self.buffer[self.at..end].copy_from_slice(bytes);
        self.at = end;
    }

    /// Writes a record whose body is some fields of a byte each and what stands behind them: the placement of a make, or the value of a write.
    fn put_record(&mut self, kind: RecordKind, fields: &[u8], rest: &[u8])
        requires room { self.old.at + 4 + length fields.now + length rest.now ≤ length self.old.buffer.now }
        requires short { 2 + length fields.now + length rest.now < 65536 }
        ensures same_buffer { self.new.buffer.ghost_name ≡ self.old.buffer.ghost_name }
        ensures after { self.new.buffer.now ≡ over self.old.buffer.now self.old.at (record_with (number_of kind) (fields.now ++ rest.now)) }
        ensures place { self.new.at ≡ self.old.at + 4 + length fields.now + length rest.now }
    {
        // It fits, by `short`: a `try_from` would bring a branch that never runs.
        let len = (2 + fields.len() + rest.len()) as u16;
        self.put(&len.to_le_bytes());
        // The discriminant of the kind, for which Rust has no other word.
        self.put(&(kind as u16).to_le_bytes());
        self.put(fields);
        self.put(rest);
    }

    /// Writes the record of a call.
    fn put_call(&mut self, call: &Call<'_>)
        requires short { length (record_of (request call.now)) ≤ longest }
        requires room { self.old.at + length (record_of (request call.now)) ≤ length self.old.buffer.now }
        ensures same_buffer { self.new.buffer.ghost_name ≡ self.old.buffer.ghost_name }
        ensures after { self.new.buffer.now ≡ over self.old.buffer.now self.old.at (record_of (request call.now)) }
        ensures place { self.new.at ≡ self.old.at + length (record_of (request call.now)) }
        ensures fit { Fit (request call.now) }
    {
        match *call {
            Call::Make {
                nodes,
                keys,
                placement,
            } => self.put_record(RecordKind::Make, &[nodes, keys], placement),
            Call::Begin { mode } => self.put_record(RecordKind::Begin, &[mode], &[]),
            Call::Read {
                transaction,
                key,
                node,
            } => self.put_record(RecordKind::Read, &[transaction, key, node], &[]),
            Call::Write {
                transaction,
                key,
                value,
            } => self.put_record(RecordKind::Write, &[transaction, key], &value.to_le_bytes()),
            Call::Offer { transaction } => self.put_record(RecordKind::Offer, &[transaction], &[]),
            Call::Prepare { transaction, node } => {
                self.put_record(RecordKind::Prepare, &[transaction, node], &[])
            }
            Call::Decide { transaction } => {
                self.put_record(RecordKind::Decide, &[transaction], &[])
            }
            Call::Cancel { transaction } => {
                self.put_record(RecordKind::Cancel, &[transaction], &[])
            }
            Call::Learn { transaction, node } => {
                self.put_record(RecordKind::Learn, &[transaction, node], &[])
            }
            Call::Apply { node } => self.put_record(RecordKind::Apply, &[node], &[]),
            Call::Finish { transaction } => {
                self.put_record(RecordKind::Finish, &[transaction], &[])
            }
        }
    }
}

/// Writes the records of some calls to the front of a buffer, and gives the place behind them.
fn put_calls(calls: &[Call<'_>], buffer: &mut [u8]) -> usize
    requires short { length (tape_of (map request calls.now)) ≤ longest }
    requires room { length (tape_of (map request calls.now)) ≤ length buffer.old }
    ensures after { buffer.new ≡ over buffer.old 0 (tape_of (map request calls.now)) }
    ensures value { result ≡ length (tape_of (map request calls.now)) }
    ensures fit { AllFit (map request calls.now) }
{
    let mut cursor = Cursor { buffer, at: 0 };
    for call in calls {
        cursor.put_call(call);
    }
    cursor.at
}
