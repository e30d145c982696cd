//! The answers that the results of the calls stand for.
//!
//! A function for each call, which names the call's definition, and no trait of the result's type: begin, offer and apply answer by the same type of number.

ghost use Rattle.std.specs.Prelude.{◌≡◌, Err};
ghost use Rattle.catalogue.specs.Replies.{begun, done, found, polled, voted, decided, applied, decision_answer, vote_answer};

use crate::decision::Decision;
use crate::vote::Vote;
use calls::answer::Answer;
use calls::refusal::Refusal;
use calls::sizes::{StoredValue, TransactionNumber};

impl From<Vote> for Answer {
    ghost from_gives = { λ vote answer. answer ≡ vote_answer vote };

    fn from(vote: Vote) -> Answer {
        match vote {
            Vote::Yes { number } => Answer::Yes { number },
            Vote::NoOvertaken { key } => Answer::NoOvertaken { key },
            Vote::NoPlace { key } => Answer::NoPlace { key },
        }
    }
}

impl From<Decision> for Answer {
    ghost from_gives = { λ decision answer. answer ≡ decision_answer decision };

    fn from(decision: Decision) -> Answer {
        match decision {
            Decision::Committed { stamp } => Answer::Committed { stamp },
            Decision::Aborted => Answer::Aborted,
        }
    }
}

/// The answer to a call that is refused.
pub(crate) fn refused(refusal: Refusal) -> Answer
    ensures { result ≡ done (Err refusal) }
{
    Answer::Refused { refusal }
}

/// The answer to a begin.
pub fn of_begin(r: Result<TransactionNumber, Refusal>) -> Answer
    ensures { result ≡ begun r }
{
    r.map_or_else(refused, |transaction| Answer::Begun { transaction })
}

/// The answer to a call that says no more than that it is done.
pub fn of_done(r: Result<(), Refusal>) -> Answer
    ensures { result ≡ done r }
{
    r.map_or_else(refused, |()| Answer::Done)
}

/// The answer to a read.
pub fn of_read(r: Result<(StoredValue, TransactionNumber), Refusal>) -> Answer
    ensures { result ≡ found r }
{
    r.map_or_else(refused, |(value, writer)| Answer::Found { value, writer })
}

/// The answer to an offer.
pub fn of_offer(r: Result<u8, Refusal>) -> Answer
    ensures { result ≡ polled r }
{
    r.map_or_else(refused, |nodes| Answer::Polled { nodes })
}

/// The answer to a prepare.
pub fn of_prepare(r: Result<Vote, Refusal>) -> Answer
    ensures { result ≡ voted r }
{
    r.map_or_else(refused, Answer::from)
}

/// The answer to a decide.
pub fn of_decide(r: Result<Decision, Refusal>) -> Answer
    ensures { result ≡ decided r }
{
    r.map_or_else(refused, Answer::from)
}

/// The answer to an apply.
pub fn of_apply(r: Result<TransactionNumber, Refusal>) -> Answer
    ensures { result ≡ applied r }
{
    r.map_or_else(refused, |transaction| Answer::Applied { transaction })
}
