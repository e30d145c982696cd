//! The parts of a catalogue's tables, read and written.

ghost use Rattle.std.specs.Prelude.{◌≡◌, ℕ, ◌+◌, ◌-◌, ◌<◌, ◌≤◌, true, false, ◌||◌, [], ◌∷◌, ◌++◌, length, IfOk, if◌then◌else◌, None, Ok, Err, vec_len, MatchResult, nat_lt, slice_index_or, slice_set};
ghost use Rattle.std.specs.Fn.{FnOnceReturnsAtMut};
ghost use Rattle.calls.specs.declared.answer.Answer.TheVariants.{Done};
ghost use Rattle.calls.specs.declared.refusal.Refusal.TheVariants.{TooManyKeysWritten, NoSuchTransaction, NoSuchNode, NoSuchKey, WrongState};
ghost use Rattle.store.specs.Model.{Meaning, fresh};
ghost use Rattle.rules.specs.World.{refuse, check, with_transaction, wrote, how_many, is_begun, is_node, is_key, node, transaction, holds, new_transaction};
ghost use Rattle.rules.specs.Changes.{may, has_written};
ghost use Rattle.rules.specs.Reading.{read_open, read_call, write_call};
ghost use Rattle.rules.specs.Applying.{learn_by, learn_call};
ghost use Rattle.rules.specs.Steps.{can_make, made_world};
ghost use Rattle.records.specs.Bounds.{is_committed, for_undecided, raised_by, most, TransactionWithin, NodeWithin, Keeps, Raises};
ghost use Rattle.catalogue.specs.Tables.{world_of};
ghost use Rattle.catalogue.specs.Recorded.{NodeRecorded, Recorded, lent};
ghost use Rattle.catalogue.specs.Replacing.{NodeReplaced, TransactionReplaced};

use super::Table;
use calls::refusal::Refusal;
use calls::sizes::{KeyNumber, NodeNumber, TransactionNumber};
use keys::placing::holds;
use records::changes::new_transaction;
use records::marks::is_marked;
use records::states::allow;
use records::votes::is_polled;
use rules::records::{Event, Kind, Node, Transaction};
use std::alloc::{AllocError, Global};

impl Table {
    /// The tables of a new catalogue. All their memory is taken here.
    pub(crate) fn make(heap: Global, count: u8, placement: &[u8]) -> Result<Table, AllocError>
        requires nodes { (1 ≤ count) × (count ≤ 8) }
        requires keys { length placement.now ≤ 64 }
        ensures { IfOk result (λ table. world_of table fresh ≡ made_world count placement.now) }
    {
        let node = Node {
            counter: 0,
            frontier: 0,
            seen: [0; 8],
        };
        let nodes = vec![in heap; node; usize::from(count)]?;
        let transactions = Vec::with_capacity(heap, 255)?;
        let placement = Vec::from_slice(heap, placement)?;
        Ok(Table {
            nodes,
            transactions,
            placement,
        })
    }

    /// The record of a transaction.
    pub(crate) fn transaction(&self, t: TransactionNumber) -> Result<&Transaction, Refusal>
        ensures value { lent (λ x. x.now) result ≡ (if is_begun (world_of self.now fresh) t then Ok (transaction (world_of self.now fresh) t) else Err NoSuchTransaction) }
        ensures within { IfOk result (λ x. TransactionWithin (most self.now.transactions.items) x.now) }
    {
        let i = usize::from(t)
            .checked_sub(1)
            .ok_or(Refusal::NoSuchTransaction)?;
        self.transactions.get(i).ok_or(Refusal::NoSuchTransaction)
    }

    /// The record of a transaction that is in the state that an event needs.
    pub(crate) fn asked(&self, t: TransactionNumber, event: Event) -> Result<&Transaction, Refusal>
        ensures value { lent (λ x. x.now) result ≡ (if is_begun (world_of self.now fresh) t then (if may event (transaction (world_of self.now fresh) t) then Ok (transaction (world_of self.now fresh) t) else Err WrongState) else Err NoSuchTransaction) }
        ensures undecided { IfOk result (λ x. for_undecided event ≡ true → is_committed x.now.state ≡ false) }
    {
        let x = self.transaction(t)?;
        allow(x, event)?;
        Ok(x)
    }

    /// The records of an open transaction and of a node that holds a key, for a read of the key there: the read goes on with them, or is refused.
    pub(crate) fn readable(
        &self,
        t: TransactionNumber,
        k: KeyNumber,
        p: NodeNumber,
    ) -> Result<(&Transaction, Node), Refusal>
        ensures call { MatchResult result (λ o. (m : Meaning) → read_call (world_of self.now m) t k p ≡ read_open (world_of self.now m) t k p o.0.now (slice_index_or o.0.now.written k None)) (λ e. (m : Meaning) → read_call (world_of self.now m) t k p ≡ refuse (world_of self.now m) e) }
        ensures known { IfOk result (λ o. Recorded self.now t o.0.now × NodeRecorded self.now p o.1 × (k < 64) × TransactionWithin (most self.now.transactions.items) o.0.now) }
    {
        let x = self.transaction(t)?;
        let n = self.node(p)?;
        if !self.has_key(k) {
            return Err(Refusal::NoSuchKey);
        }
        if !self.holds(p, k) {
            return Err(Refusal::KeyNotHeld);
        }
        allow(x, Event::Read)?;
        Ok((x, n))
    }

    /// The record of an open update that may write a key: the write goes on with it, or is refused.
    pub(crate) fn writable(
        &self,
        t: TransactionNumber,
        k: KeyNumber,
    ) -> Result<&Transaction, Refusal>
        ensures call { MatchResult result (λ x. (m : Meaning) (value : ℕ) → write_call (world_of self.now m) t k value ≡ check (wrote x.now k || nat_lt (how_many x.now.written) 8) (world_of self.now m) TooManyKeysWritten (Done, with_transaction (world_of self.now m) t (has_written k value x.now))) (λ e. (m : Meaning) (value : ℕ) → write_call (world_of self.now m) t k value ≡ refuse (world_of self.now m) e) }
        ensures known { IfOk result (λ x. Recorded self.now t x.now) }
    {
        let x = self.transaction(t)?;
        if !self.has_key(k) {
            return Err(Refusal::NoSuchKey);
        }
        allow(x, Event::Write)?;
        Ok(x)
    }

    /// The records of a decided update and of a node that it polled and that has yet to learn of it: the node learns, or the call is refused.
    pub(crate) fn learnable(
        &self,
        t: TransactionNumber,
        p: NodeNumber,
    ) -> Result<(&Transaction, Node), Refusal>
        ensures call { MatchResult result (λ o. (m : Meaning) → learn_call (world_of self.now m) t p ≡ learn_by (world_of self.now m) t p o.0.now o.0.now.state) (λ e. (m : Meaning) → learn_call (world_of self.now m) t p ≡ refuse (world_of self.now m) e) }
        ensures known { IfOk result (λ o. Recorded self.now t o.0.now × NodeRecorded self.now p o.1) }
    {
        let x = self.transaction(t)?;
        let n = self.node(p)?;
        allow(x, Event::Learn)?;
        if !is_polled(x, p) {
            return Err(Refusal::NotPolled);
        }
        if is_marked(&x.learned, p) {
            return Err(Refusal::AlreadyDone);
        }
        Ok((x, n))
    }

    // That a number is begun is one word in the contracts below: it is said of a number and a table, so that no type of number could keep it.

    /// The record of a transaction that is begun.
    pub(crate) fn record(&self, t: TransactionNumber) -> &Transaction
        requires { is_begun (world_of self.now fresh) t ≡ true }
        ensures value { result.now ≡ transaction (world_of self.now fresh) t }
        ensures within { TransactionWithin (most self.now.transactions.items) result.now }
    {
        &self.transactions[usize::from(t) - 1]
    }

    /// How many transactions are begun.
    pub(crate) fn begun(&self) -> usize
        ensures value { result ≡ length self.now.transactions.items }
        ensures bound { result ≤ 255 }
    {
        self.transactions.len()
    }

    /// The record of a node.
    pub(crate) fn node(&self, p: NodeNumber) -> Result<Node, Refusal>
        ensures value { result ≡ (if is_node (world_of self.now fresh) p then Ok (node (world_of self.now fresh) p) else Err NoSuchNode) }
        ensures within { IfOk result (λ n. NodeWithin (most self.now.transactions.items) n × (p < 8)) }
    {
        self.nodes
            .get(usize::from(p))
            .copied()
            .ok_or(Refusal::NoSuchNode)
    }

    /// Whether there is such a key.
    pub(crate) fn has_key(&self, k: KeyNumber) -> bool
        ensures value { result ≡ is_key (world_of self.now fresh) k }
        ensures bound { result ≡ true → k < 64 }
    {
        usize::from(k) < self.placement.len()
    }

    /// Whether a node holds a key.
    pub(crate) fn holds(&self, p: NodeNumber, k: KeyNumber) -> bool
        ensures { result ≡ holds (world_of self.now fresh) p k }
    {
        holds(&self.placement, p, k)
    }

    // Three names for one change, `change`: one name would have to ask and promise all that the three do, by cases. What the closure may be, and what it leaves, is said in the
    // same words by each: two clauses, which a definition over any closure would not shorten.

    /// Changes the record of a transaction in place, which raises no number.
    pub(crate) fn update<A, F: FnOnce(&mut Transaction) -> A>(
        &mut self,
        t: TransactionNumber,
        change: F,
    ) -> A
        requires begun { is_begun (world_of self.old fresh) t ≡ true }
        requires callable { F.IsAlwaysCallable change }
        requires kept { let x = transaction (world_of self.old fresh) t in (a : A) (y : Transaction) → FnOnceReturnsAtMut F.FnOnce change x a y → Keeps x y }
        ensures changed { (y : Transaction) × FnOnceReturnsAtMut F.FnOnce change (transaction (world_of self.old fresh) t) result y × TransactionReplaced self.old self.new t y }
        ensures bound { most self.new.transactions.items ≡ most self.old.transactions.items }
    {
        self.change(t, change)
    }

    /// Changes the record of a transaction in place to one whose numbers stand in the tables already.
    pub(crate) fn update_within<A, F: FnOnce(&mut Transaction) -> A>(
        &mut self,
        t: TransactionNumber,
        change: F,
    ) -> A
        requires begun { is_begun (world_of self.old fresh) t ≡ true }
        requires callable { F.IsAlwaysCallable change }
        requires same { let x = transaction (world_of self.old fresh) t in (a : A) (y : Transaction) → FnOnceReturnsAtMut F.FnOnce change x a y → raised_by y ≡ raised_by x }
        requires within { let x = transaction (world_of self.old fresh) t in (a : A) (y : Transaction) → FnOnceReturnsAtMut F.FnOnce change x a y → TransactionWithin (most self.old.transactions.items) y }
        ensures changed { (y : Transaction) × FnOnceReturnsAtMut F.FnOnce change (transaction (world_of self.old fresh) t) result y × TransactionReplaced self.old self.new t y }
        ensures bound { most self.new.transactions.items ≡ most self.old.transactions.items }
    {
        self.change(t, change)
    }

    /// Changes the record of a transaction in place, which raises a number once, by a vote or a commit.
    pub(crate) fn raise<A, F: FnOnce(&mut Transaction) -> A>(
        &mut self,
        t: TransactionNumber,
        change: F,
    ) -> A
        requires begun { is_begun (world_of self.old fresh) t ≡ true }
        requires callable { F.IsAlwaysCallable change }
        requires raised { let x = transaction (world_of self.old fresh) t in (a : A) (y : Transaction) → FnOnceReturnsAtMut F.FnOnce change x a y → TransactionWithin (most self.old.transactions.items) x → Raises (most self.old.transactions.items) x y }
        ensures changed { (y : Transaction) × FnOnceReturnsAtMut F.FnOnce change (transaction (world_of self.old fresh) t) result y × TransactionReplaced self.old self.new t y }
        ensures bound { most self.new.transactions.items ≡ most self.old.transactions.items + 256 }
    {
        self.change(t, change)
    }

    /// Changes the record of a transaction in place, which must not take back a vote or a commit.
    fn change<A, F: FnOnce(&mut Transaction) -> A>(&mut self, t: TransactionNumber, change: F) -> A
        requires begun { is_begun (world_of self.old fresh) t ≡ true }
        requires callable { F.IsAlwaysCallable change }
        requires grows { let x = transaction (world_of self.old fresh) t in (a : A) (y : Transaction) → FnOnceReturnsAtMut F.FnOnce change x a y → raised_by x ≤ raised_by y }
        requires within { let x = transaction (world_of self.old fresh) t in (a : A) (y : Transaction) → FnOnceReturnsAtMut F.FnOnce change x a y → TransactionWithin (most (slice_set self.old.transactions.items (t - 1) y)) y }
        ensures { (y : Transaction) × FnOnceReturnsAtMut F.FnOnce change (transaction (world_of self.old fresh) t) result y × TransactionReplaced self.old self.new t y }
    {
        change(&mut self.transactions[usize::from(t) - 1])
    }

    /// Replaces the record of a node.
    pub(crate) fn set_node(&mut self, p: NodeNumber, n: Node)
        requires { NodeWithin (most self.old.transactions.items) n }
        ensures { NodeReplaced self.old self.new p n }
    {
        if usize::from(p) < self.nodes.len() {
            self.nodes[usize::from(p)] = n;
        }
    }

    /// Adds a new transaction, for which there must be a number.
    pub(crate) fn begin(&mut self, kind: Kind)
        requires { length self.old.transactions.items < 255 }
        ensures transactions { self.new.transactions.items ≡ self.old.transactions.items ++ new_transaction kind ∷ [] }
        ensures nodes { self.new.nodes.items ≡ self.old.nodes.items }
        ensures placement { self.new.placement.items ≡ self.old.placement.items }
    {
        self.transactions.push_reserved(new_transaction(kind));
    }
}
