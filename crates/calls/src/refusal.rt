ghost use Rattle.std.specs.Prelude.{◌≡◌};
ghost use Rattle.calls.specs.Refusals.{number};

/// Why a call, a record or a tape is refused. docs/REFUSALS.md says of each exactly when it comes.
#[derive(Clone, Copy, Debug, PartialEq, Eq)]
pub enum Refusal {
    MakeOutOfBounds = 1,
    NoSuchTransaction = 2,
    NoSuchNode = 3,
    NoSuchKey = 4,
    KeyNotHeld = 5,
    UnreadableTape = 6,
    BadRecord = 7,
    MakeOutOfOrder = 8,
    TapeFull = 9,
    NumbersUsedUp = 10,
    WrongState = 11,
    NotYet = 12,
    Overtaken = 13,
    TooManyKeysRead = 14,
    TooManyKeysWritten = 15,
    NotPolled = 16,
    AlreadyDone = 17,
    Busy = 18,
    VotesOutstanding = 19,
    NothingToApply = 20,
    NotLearned = 21,
}

impl Refusal {
    /// The number by which a listing names the refusal.
    pub fn number(self) -> u8
        ensures { result ≡ number self }
    {
        // The discriminant, which the enum gives: Rust has no other word for it than `as`.
        self as u8
    }
}
