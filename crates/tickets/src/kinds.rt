//! The kinds of tickets: what each stands for, and what it may be asked.

ghost use Rattle.std.specs.Prelude.{◌≡◌, Bool, true, false};
ghost use Rattle.rules.specs.declared.records.Kind.{Kind as TransactionKind};
ghost use Rattle.rules.specs.declared.records.Kind.TheVariants.{Search as IsSearch, Update as IsUpdate};

use crate::sealed::Sealed;
use rules::records::Kind;

/// A kind of tickets.
pub trait TicketKind: Sealed {
    /// Whether tickets of this kind may read: those of open transactions.
    ghost reads: { Bool };

    /// Whether tickets of this kind may write: those of open updates.
    ghost writes: { Bool };
}

/// A kind that a ticket has when its transaction begins.
pub trait Begin: TicketKind {
    /// The kind of the transaction, as the clauses name it.
    ghost KIND: { TransactionKind };

    /// The kind of the transaction.
    const KIND: Kind;
}

/// A kind of tickets that stand for updates, which can be cancelled.
pub trait Cancel: TicketKind {}

/// An open `Search`, until it is finished. It may read.
pub enum Search {}

/// An open update, until it is offered or cancelled. It may read and write.
pub enum Update {}

/// An offered update, until it is decided or cancelled. It may neither read nor write.
pub enum Offered {}

impl Sealed for Search {}

impl Sealed for Update {}

impl Sealed for Offered {}

impl TicketKind for Search {
    ghost reads = { true };

    ghost writes = { false };
}

impl TicketKind for Update {
    ghost reads = { true };

    ghost writes = { true };
}

impl TicketKind for Offered {
    ghost reads = { false };

    ghost writes = { false };
}

impl Begin for Search {
    ghost KIND = { IsSearch };

    const KIND: Kind = Kind::Search;
}

impl Begin for Update {
    ghost KIND = { IsUpdate };

    const KIND: Kind = Kind::Update;
}

impl Cancel for Update {}

impl Cancel for Offered {}
