//! The updates that wait at a node.

ghost use Rattle.std.specs.Prelude.{◌≡◌, ◌≤◌, ◌&&◌, true, length, take, IfSome};
ghost use Rattle.clock.specs.Clocks.{marked};
ghost use Rattle.rules.specs.World.{World, is_begun, is_write_node};
ghost use Rattle.rules.specs.Applying.{least_waiting};

use crate::marks::{is_engaged, number_at};
use calls::sizes::{NodeNumber, TransactionNumber};
use keys::writing::writes_at;
use rules::records::Transaction;

/// Whether an update waits at a node: it is engaged there, and writes there.
fn waits(placement: &[u8], x: &Transaction, p: NodeNumber) -> bool
    ensures { (w : World) → w.placement ≡ placement.now → result ≡ (marked x.now.engaged p && is_write_node w x.now p) }
{
    is_engaged(x, p) && writes_at(placement, x, p)
}

/// The update that waits at a node with the least number, of transactions that all have a number.
fn least_numbered(
    transactions: &[Transaction],
    placement: &[u8],
    p: NodeNumber,
) -> Option<TransactionNumber>
    requires { length transactions.now ≤ 255 }
    ensures value { (w : World) → w.transactions ≡ transactions.now → w.placement ≡ placement.now → result ≡ least_waiting w p }
    ensures begun { (w : World) → w.transactions ≡ transactions.now → IfSome result (λ t. is_begun w t ≡ true) }
{
    let (i, _) = transactions
        .iter()
        .enumerate()
        .filter(|(_, x)| waits(placement, x, p))
        .min_by_key(|(_, x)| number_at(x, p))?;
    TransactionNumber::try_from(i + 1).ok()
}

/// The update that waits at a node with the least number. Of more than 255 transactions it looks at the first 255, which have a number.
pub fn least_waiting(
    transactions: &[Transaction],
    placement: &[u8],
    p: NodeNumber,
) -> Option<TransactionNumber>
    ensures value { (w : World) → w.transactions ≡ transactions.now → w.placement ≡ placement.now → length transactions.now ≤ 255 → result ≡ least_waiting w p }
    ensures first { (w : World) → w.transactions ≡ take 255 transactions.now → w.placement ≡ placement.now → result ≡ least_waiting w p }
    ensures begun { (w : World) → w.transactions ≡ transactions.now → IfSome result (λ t. is_begun w t ≡ true) }
{
    let numbered = transactions.len().min(255);
    least_numbered(&transactions[..numbered], placement, p)
}
