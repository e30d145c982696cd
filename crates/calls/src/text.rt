//! The words of an answer, and of a refusal.

ghost use Rattle.calls.specs.Text.{text, words};
ghost use Rattle.std.specs.Prelude.{Some};

use crate::answer::Answer;
use crate::refusal::Refusal;
use std::fmt;

impl fmt::Display for Refusal {
    ghost output = { λ r. Some (words r) };

    fn fmt<W: fmt::Write>(&self, f: &mut fmt::Formatter<W>) -> fmt::Result {
        write!(f, "refused {}", self.number())
    }
}

impl fmt::Display for Answer {
    ghost output = { λ a. Some (text a) };

    fn fmt<W: fmt::Write>(&self, f: &mut fmt::Formatter<W>) -> fmt::Result {
        match *self {
            Answer::Done => write!(f, "ok"),
            Answer::Begun { transaction } => write!(f, "t {transaction}"),
            Answer::Found { value, writer } => write!(f, "value {value} from {writer}"),
            Answer::Polled { nodes } => write!(f, "polls {nodes}"),
            Answer::Yes { number } => write!(f, "yes {number}"),
            Answer::NoOvertaken { key } => write!(f, "no overtaken {key}"),
            Answer::NoPlace { key } => write!(f, "no place {key}"),
            Answer::Committed { stamp } => write!(f, "commit {stamp}"),
            Answer::Aborted => write!(f, "abort"),
            Answer::Applied { transaction } => write!(f, "applied {transaction}"),
            Answer::Refused { refusal } => write!(f, "{refusal}"),
        }
    }
}
