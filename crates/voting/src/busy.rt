//! Whether a node is busy with another update.

ghost use Rattle.std.specs.Prelude.{◌≡◌, not, ◌&&◌, ◌==◌};
ghost use Rattle.clock.specs.Clocks.{marked};
ghost use Rattle.rules.specs.World.{World, transaction};
ghost use Rattle.rules.specs.Voting.{conflict_at, busy};

use crate::marks::is_engaged;
use calls::sizes::{KeyNumber, NodeNumber, TransactionNumber};
use keys::named::{has_noted, has_written};
use keys::placing::holds;
use rules::records::Transaction;

/// Whether two updates conflict at a key that a node holds.
fn conflict_at(
    placement: &[u8],
    x: &Transaction,
    other: &Transaction,
    p: NodeNumber,
    k: KeyNumber,
) -> bool
    ensures { (w : World) → w.placement ≡ placement.now → result ≡ conflict_at w x.now other.now p k }
{
    // That most keys are neither noted nor written by `x` is looked at first.
    let writes = has_written(x, k);
    (has_noted(x, k) || writes)
        && holds(placement, p, k)
        && (has_written(other, k) || (has_noted(other, k) && writes))
}

/// Whether the update with the number `u` is another than `t`. Not inlined: the compiler would compare the numbers of all transactions, of which few are engaged.
#[inline(never)]
fn is_another(t: TransactionNumber, u: usize) -> bool
    ensures { result ≡ not (u == t) }
{
    u != usize::from(t)
}

/// Whether the update with the number `u` is another than `t`, and engaged at a node.
fn is_rival(t: TransactionNumber, u: usize, other: &Transaction, p: NodeNumber) -> bool
    ensures { result ≡ (not (u == t) && marked other.now.engaged p) }
{
    is_engaged(other, p) && is_another(t, u)
}

/// Whether another update that is engaged at a node conflicts there with `t`, whose record is `x`.
pub fn is_busy(
    transactions: &[Transaction],
    placement: &[u8],
    t: TransactionNumber,
    x: &Transaction,
    p: NodeNumber,
) -> bool
    ensures { (w : World) → w.transactions ≡ transactions.now → w.placement ≡ placement.now → x.now ≡ transaction w t → result ≡ busy w t p }
{
    // Nested loops, left by their label at the first conflict, and no chain: this place keeps its form (docs/DECISIONS.md, "Some places keep one form").
    let mut found = false;
    'transactions: for (i, other) in transactions.iter().enumerate() {
        if !is_rival(t, i + 1, other, p) {
            continue;
        }
        for k in 0..64 {
            if conflict_at(placement, x, other, p, k) {
                found = true;
                break 'transactions;
            }
        }
    }
    found
}
