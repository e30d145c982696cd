//! The kinds of record, and how long a tape may be.

ghost use Rattle.std.specs.Prelude.{◌≡◌};
ghost use Rattle.tape.specs.Kinds.{kind_numbered};

use calls::refusal::Refusal;

/// What a record says, by the number that stands behind its length.
#[derive(Clone, Copy, Debug, PartialEq, Eq)]
pub enum RecordKind {
    Make = 0,
    Begin = 1,
    Read = 2,
    Write = 3,
    Offer = 4,
    Prepare = 5,
    Decide = 6,
    Cancel = 7,
    Learn = 8,
    Apply = 9,
    Finish = 10,
}

impl TryFrom<u16> for RecordKind {
    type Error = Refusal;

    ghost try_from_gives = { λ number result. result ≡ kind_numbered number };

    fn try_from(number: u16) -> Result<RecordKind, Refusal> {
        match number {
            0 => Ok(RecordKind::Make),
            1 => Ok(RecordKind::Begin),
            2 => Ok(RecordKind::Read),
            3 => Ok(RecordKind::Write),
            4 => Ok(RecordKind::Offer),
            5 => Ok(RecordKind::Prepare),
            6 => Ok(RecordKind::Decide),
            7 => Ok(RecordKind::Cancel),
            8 => Ok(RecordKind::Learn),
            9 => Ok(RecordKind::Apply),
            10 => Ok(RecordKind::Finish),
            _ => Err(Refusal::BadRecord),
        }
    }
}

/// The most bytes of a tape.
pub const MAX_TAPE: usize = 32_768;
