//! What a transaction's record has for a node; nothing for what is no node. Expressions of the library's methods: a function generic in the row would be no shorter.

ghost use Rattle.std.specs.Prelude.{◌≡◌};
ghost use Rattle.clock.specs.Clocks.{slot, marked};

use calls::sizes::{NodeNumber, Stamp};
use records::marks::is_marked;
use rules::records::Transaction;

/// Whether a transaction is engaged at a node.
pub(crate) fn is_engaged(x: &Transaction, p: NodeNumber) -> bool
    ensures { result ≡ marked x.now.engaged p }
{
    is_marked(&x.engaged, p)
}

/// The number of an update at a node.
pub(crate) fn number_at(x: &Transaction, p: NodeNumber) -> Stamp
    ensures { result ≡ slot x.now.numbers p }
{
    x.numbers.get(usize::from(p)).copied().unwrap_or(0)
}
