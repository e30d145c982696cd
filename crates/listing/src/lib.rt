//! The listing of a run: a line for each record.
#![tactic(auto)]

pub mod line;

ghost use Rattle.std.specs.Prelude.{◌≡◌, IfOk, Some, string_bytes};
ghost use Rattle.listing.specs.Text.{line, lines as text_of};

use line::Line;
use std::alloc::{AllocError, Global};
use std::fmt;

impl fmt::Display for Line {
    ghost output = { λ l. Some (line l) };

    fn fmt<W: fmt::Write>(&self, f: &mut fmt::Formatter<W>) -> fmt::Result {
        writeln!(f, "{} {}", self.place, self.answer)
    }
}

/// The text of some lines, one after another.
pub fn listing_of(heap: Global, lines: &[Line]) -> Result<String, AllocError>
    ensures { IfOk result (λ s. string_bytes s ≡ text_of lines.now) }
{
    let mut text = String::new(heap);
    for line in lines {
        write!(text, "{line}")?;
    }
    Ok(text)
}
