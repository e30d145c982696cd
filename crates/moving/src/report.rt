//! Prints each step with its answer.

use calls::answer::Answer;
use std::fmt::Display;
use std::io;

/// Where the steps are printed. That a line could not be printed is told at the end only: a step that returned at once would let go of
/// the tickets in hand.
#[derive(Drop)]
pub(crate) struct Report<'a> {
    rt: &'a HostRuntime,
    printed: io::Result<()>,
}

impl<'a> Report<'a> {
    pub(crate) fn new(rt: &'a HostRuntime) -> Report<'a> {
        Report {
            rt,
            printed: Ok(()),
        }
    }

    /// What follows is about this.
    pub(crate) fn title(&mut self, title: &str) {
        if self.printed.is_ok() {
            self.printed = println!(self.rt; "{title}");
        }
    }

    /// What is done, and the answer to it.
    pub(crate) fn step(&mut self, what: impl Display + Drop, answer: Answer) {
        if self.printed.is_ok() {
            self.printed = println!(self.rt; "  {what}: {answer}");
        }
    }

    /// Whether every line could be printed.
    pub(crate) fn end(self) -> io::Result<()> {
        self.printed
    }
}
