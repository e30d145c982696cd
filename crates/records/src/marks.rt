//! Rows with a mark for each node. Past the last node there is no mark. One expression of the library's methods: a function generic in the row would be no shorter.

ghost use Rattle.std.specs.Prelude.{◌≡◌};
ghost use Rattle.clock.specs.Clocks.{marked};

use calls::sizes::NodeNumber;

/// Whether a node is marked. The row is lent: copied, it would cost more than the look at it where all transactions are gone through.
pub fn is_marked(marks: &[bool], p: NodeNumber) -> bool
    ensures { result ≡ marked marks.now p }
{
    marks.get(usize::from(p)).copied().unwrap_or(false)
}
