//! A ticket, and what can be done with it.

ghost use Rattle.std.specs.Prelude.{◌≡◌, true};
ghost use Rattle.rules.specs.Deciding.{begin_call, cancel_call, finish_call, offer_call};
ghost use Rattle.rules.specs.Reading.{read_call, write_call};
ghost use Rattle.catalogue.specs.Tables.{world};
ghost use Rattle.catalogue.specs.Replies.{decided, done, found, polled};
ghost use Rattle.tickets.specs.Handing.{began, decide_ticket_call};

use crate::kinds::{Begin, Cancel, Offered, Search, TicketKind, Update};
use calls::refusal::Refusal;
use calls::sizes::{KeyNumber, NodeNumber, StoredValue, TransactionNumber};
use catalogue::catalogue::Catalogue;
use catalogue::decision::Decision;
use std::marker::PhantomData;
use store::VersionStore;

/// Stands for one transaction, from its begin until the ticket is handed in. Its kind says what it may be asked.
///
/// That it is handed in is a mark and no kind: the method that takes it up lets go of it as well, and `drop` asks for the mark. A kind of tickets that may be let go would
/// need another ticket to be made for each that is taken up.
pub struct Ticket<K: TicketKind> {
    transaction: TransactionNumber,
    handed_in: bool,
    kind: PhantomData<K>,
}

/// Stands for a `Search` until it is finished.
pub type SearchTicket = Ticket<Search>;

/// Stands for an update until it is offered or cancelled.
pub type UpdateTicket = Ticket<Update>;

/// Stands for an offered update until it is decided or cancelled.
pub type OfferedTicket = Ticket<Offered>;

/// A ticket can be let go once it is handed in, which `finish`, `offer`, `cancel` and `decide` do.
impl<K: TicketKind> Drop for Ticket<K> {
    fn drop(self)
        requires handed_in { self.handed_in ≡ true }
    {
        let Ticket {
            transaction: _,
            handed_in: _,
            kind: _,
        } = self;
    }
}

impl<K: TicketKind> Ticket<K> {
    /// The ticket of a transaction that was just begun or offered.
    fn new(transaction: TransactionNumber) -> Ticket<K>
        ensures { result.transaction ≡ transaction }
    {
        Ticket {
            transaction,
            handed_in: false,
            kind: PhantomData,
        }
    }

    /// Uses the ticket up, and gives the number of its transaction.
    fn hand_in(mut self) -> TransactionNumber
        ensures { result ≡ self.transaction }
    {
        self.handed_in = true;
        self.number()
    }

    /// The number of the transaction, for the calls that name it.
    pub fn number(&self) -> TransactionNumber
        ensures { result ≡ self.now.transaction }
    {
        self.transaction
    }

    /// Reads a key at a node: its value there, and the transaction that wrote it. A program that asks it of a ticket that may not read is
    /// not proved.
    pub fn read<S: VersionStore>(
        &self,
        catalogue: &mut Catalogue<S>,
        k: KeyNumber,
        p: NodeNumber,
    ) -> Result<(StoredValue, TransactionNumber), Refusal>
        requires { K.reads ≡ true }
        ensures step { (found result, world S.meaning catalogue.new) ≡ read_call (world S.meaning catalogue.old) self.now.transaction k p }
        ensures rule { S.free catalogue.new.store ≡ S.free catalogue.old.store }
    {
        catalogue.read(self.transaction, k, p)
    }

    /// Gives the update a value for a key. A program that asks it of a ticket that may not write is not proved.
    pub fn write<S: VersionStore>(
        &self,
        catalogue: &mut Catalogue<S>,
        k: KeyNumber,
        value: StoredValue,
    ) -> Result<(), Refusal>
        requires { K.writes ≡ true }
        ensures step { (done result, world S.meaning catalogue.new) ≡ write_call (world S.meaning catalogue.old) self.now.transaction k value }
        ensures rule { S.free catalogue.new.store ≡ S.free catalogue.old.store }
    {
        catalogue.write(self.transaction, k, value)
    }
}

impl<K: Begin> Ticket<K> {
    /// Begins a transaction. Where all numbers are begun, there is no ticket.
    pub fn begin<S: VersionStore>(catalogue: &mut Catalogue<S>) -> Result<Ticket<K>, Refusal>
        ensures step { (began (λ ticket. ticket.transaction) result, world S.meaning catalogue.new) ≡ begin_call (world S.meaning catalogue.old) K.KIND }
        ensures rule { S.free catalogue.new.store ≡ S.free catalogue.old.store }
    {
        Ok(Ticket::new(catalogue.begin(K::KIND)?))
    }
}

impl<K: Cancel> Ticket<K> {
    /// Aborts the update.
    pub fn cancel<S: VersionStore>(self, catalogue: &mut Catalogue<S>) -> Result<(), Refusal>
        ensures step { (done result, world S.meaning catalogue.new) ≡ cancel_call (world S.meaning catalogue.old) self.transaction }
        ensures rule { S.free catalogue.new.store ≡ S.free catalogue.old.store }
    {
        catalogue.cancel(self.hand_in())
    }
}

impl SearchTicket {
    /// Ends the `Search`.
    pub fn finish<S: VersionStore>(self, catalogue: &mut Catalogue<S>) -> Result<(), Refusal>
        ensures step { (done result, world S.meaning catalogue.new) ≡ finish_call (world S.meaning catalogue.old) self.transaction }
        ensures rule { S.free catalogue.new.store ≡ S.free catalogue.old.store }
    {
        catalogue.finish(self.hand_in())
    }
}

impl UpdateTicket {
    /// Offers the update to the nodes that hold a key that it noted or wrote, and answers how many they are. Refused or not, the ticket
    /// becomes an offered one for the same update.
    pub fn offer<S: VersionStore>(
        self,
        catalogue: &mut Catalogue<S>,
    ) -> (OfferedTicket, Result<u8, Refusal>)
        ensures step { (polled result.1, world S.meaning catalogue.new) ≡ offer_call (world S.meaning catalogue.old) self.transaction }
        ensures same { result.0.transaction ≡ self.transaction }
        ensures rule { S.free catalogue.new.store ≡ S.free catalogue.old.store }
    {
        let t = self.hand_in();
        let polls = catalogue.offer(t);
        (Ticket::new(t), polls)
    }
}

impl OfferedTicket {
    /// Commits or aborts the update by the votes of its nodes. Where some are outstanding it is cancelled, and the answer is that it
    /// is aborted.
    #[tactic(auto, using(crate::proofs::Outstanding::refused_keeps))]
    pub fn decide<S: VersionStore>(self, catalogue: &mut Catalogue<S>) -> Result<Decision, Refusal>
        ensures step { (decided result, world S.meaning catalogue.new) ≡ decide_ticket_call (world S.meaning catalogue.old) self.transaction }
        ensures rule { S.free catalogue.new.store ≡ S.free catalogue.old.store }
    {
        let t = self.hand_in();
        match catalogue.decide(t) {
            Err(Refusal::VotesOutstanding) => {
                let _ = catalogue.cancel(t);
                Ok(Decision::Aborted)
            }
            decision => decision,
        }
    }
}
