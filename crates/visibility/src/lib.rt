//! What a transaction may see at a node: its clock after a read there, and the version of a key that it gets.
//!
//! Placement, transaction and node stay separate parameters, as in `keys`.
#![tactic(auto)]

ghost use Rattle.std.specs.Prelude.{◌≡◌, ℕ, ◌<◌, ◌≤◌, [], if◌then◌else◌, true, fold, ◌==◌, slice_index_or, slice_set};
ghost use Rattle.clock.specs.Clocks.{passes};
ghost use Rattle.store.specs.Model.{in_range};
ghost use Rattle.rules.specs.declared.records.Kind.TheVariants.{Search};
ghost use Rattle.rules.specs.World.{World, new_transaction};
ghost use Rattle.rules.specs.Reading.{commit_clock, with_passing, clock_after, version_passes, newest_passing, newest_passes, visible};
ghost use Rattle.records.specs.Bounds.{ClockWithin};

use calls::sizes::{KeyNumber, NodeNumber, StoredValue, TransactionNumber};
use clock::{Clock, NodeMarks, join, passes};
use records::marks::is_marked;
use records::rows::with_entry;
use rules::records::Transaction;
use store::{Version, VersionStore};

/// A version that a transaction sees, and whether it is the newest there.
#[derive(Clone, Copy)]
pub struct Seen {
    pub version: Version,
    pub newest: bool,
}

/// The commit clock of a version's writer. It is zero for the first version, and for a number that is not begun.
pub fn commit_clock(transactions: &[Transaction], writer: TransactionNumber) -> Clock
    ensures { (w : World) → w.transactions ≡ transactions.now → result ≡ commit_clock w writer }
{
    if let Some(i) = writer.checked_sub(1)
        && let Some(u) = transactions.get(usize::from(i))
    {
        u.commit
    } else {
        [0; 8]
    }
}

/// A clock with the commit clock of one more transaction, where that is applied at a node and passes for a transaction that has read at these nodes and has this clock.
fn with_passing(
    read: NodeMarks,
    clock: Clock,
    p: NodeNumber,
    joined: Clock,
    u: &Transaction,
) -> Clock
    ensures { result ≡ with_passing read clock p joined u.now }
{
    if is_marked(&u.applied, p) && passes(read, u.commit, clock) {
        join(joined, u.commit)
    } else {
        joined
    }
}

/// The clock of a transaction with the commit clocks of all updates applied at a node that pass. Marks and clock are given as values: lent, they would be looked up again for
/// each update.
fn with_all_passing(
    read: NodeMarks,
    clock: Clock,
    p: NodeNumber,
    transactions: &[Transaction],
) -> Clock
    ensures { result ≡ fold (with_passing read clock p) clock transactions.now }
{
    let mut joined = clock;
    // A loop and no `fold`: this place keeps its form (docs/DECISIONS.md, "Some places keep one form").
    for u in transactions {
        // The proof does not cover a call whose array is laid straight into `joined`.
        let next = with_passing(read, clock, p, joined, u);
        joined = next;
    }
    joined
}

/// The clock of a transaction after a read at a node. No slot is higher than all of those that it is made from.
#[tactic(auto, using(crate::proofs::Clocks::clock_again, crate::proofs::Clocks::clock_first))]
pub fn clock_after(x: &Transaction, p: NodeNumber, transactions: &[Transaction]) -> Clock
    ensures value { (w : World) → w.transactions ≡ transactions.now → result ≡ clock_after w x.now p }
    ensures within { (b : ℕ) → ClockWithin b x.now.clock → ((i : ℕ) → ClockWithin b (slice_index_or transactions.now i (new_transaction Search)).commit) → ClockWithin b result }
{
    if is_marked(&x.read, p) {
        x.clock
    } else {
        with_all_passing(x.read, x.clock, p, transactions)
    }
}

/// A version that stands so many steps below the newest.
fn seen_after(steps: usize, value: StoredValue, writer: TransactionNumber) -> Seen
    ensures version { result.version ≡ record { value = value; writer = writer } }
    ensures newest { result.newest ≡ (steps == 0) }
{
    Seen {
        version: Version { value, writer },
        newest: steps == 0,
    }
}

/// The newest version of a key at a node whose writer's commit clock passes: the first version where there is no other.
fn newest_passing<S: VersionStore>(
    transactions: &[Transaction],
    store: &S,
    read: NodeMarks,
    clock: Clock,
    k: KeyNumber,
    p: NodeNumber,
) -> Seen
    ensures version { (w : World) → w.transactions ≡ transactions.now → result.version ≡ newest_passing (λ v. passes read (commit_clock w v.writer) clock) (if in_range p k then (S.meaning store.now p k).versions else []) }
    ensures newest { (w : World) → w.transactions ≡ transactions.now → result.newest ≡ newest_passes (λ v. passes read (commit_clock w v.writer) clock) (if in_range p k then (S.meaning store.now p k).versions else []) }
{
    let mut steps: usize = 0;
    // The `Option` of `nth` is taken apart, and no iterator made of it: this place keeps its form (docs/DECISIONS.md, "Some places keep one form").
    while let Some((value, writer)) = store.nth(p, k, steps) {
        if passes(read, commit_clock(transactions, writer), clock) {
            return seen_after(steps, value, writer);
        }
        steps += 1;
    }
    seen_after(steps, 0, 0)
}

/// The nodes that a transaction has read at, after a read at this one.
fn read_after(x: &Transaction, p: NodeNumber) -> NodeMarks
    ensures { result ≡ slice_set x.now.read p true }
{
    with_entry(x.read, p, true)
}

/// The version of a key that a transaction sees at a node, with the clock that it has after a read there. The last two clauses hold for any clock, node and
/// key: past the last node or key it sees the first version.
pub fn visible<S: VersionStore>(
    transactions: &[Transaction],
    store: &S,
    x: &Transaction,
    clock: Clock,
    k: KeyNumber,
    p: NodeNumber,
) -> Seen
    ensures version { (w : World) → w.transactions ≡ transactions.now → w.store ≡ S.meaning store.now → clock ≡ clock_after w x.now p → p < 8 → k < 64 → result.version ≡ visible w x.now k p }
    ensures newest { (w : World) → w.transactions ≡ transactions.now → w.store ≡ S.meaning store.now → clock ≡ clock_after w x.now p → p < 8 → k < 64 → result.newest ≡ newest_passes (version_passes w x.now p) (w.store p k).versions }
    ensures any_version { (w : World) → w.transactions ≡ transactions.now → result.version ≡ newest_passing (λ v. passes (slice_set x.now.read p true) (commit_clock w v.writer) clock) (if in_range p k then (S.meaning store.now p k).versions else []) }
    ensures any_newest { (w : World) → w.transactions ≡ transactions.now → result.newest ≡ newest_passes (λ v. passes (slice_set x.now.read p true) (commit_clock w v.writer) clock) (if in_range p k then (S.meaning store.now p k).versions else []) }
{
    newest_passing(transactions, store, read_after(x, p), clock, k, p)
}
