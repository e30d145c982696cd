//! The steps that the scenes are made of: each is a call, printed with its answer. They differ in the call and in its words, and share the printing.

ghost use Rattle.std.specs.Prelude.{◌≡◌, true};

use crate::folders::Folder;
use crate::report::Report;
use calls::sizes::{NodeNumber, StoredValue, TransactionNumber};
use catalogue::catalogue::Catalogue;
use catalogue::replies::{of_apply, of_begin, of_decide, of_done, of_offer, of_prepare, of_read};
use store::VersionStore;
use tickets::kinds::{Begin, Cancel, TicketKind};
use tickets::ticket::{OfferedTicket, SearchTicket, Ticket, UpdateTicket};

/// A catalogue, and the report of what is done with it.
#[derive(Drop)]
pub(crate) struct Story<'a, S: VersionStore> {
    pub(crate) report: Report<'a>,
    pub(crate) catalogue: Catalogue<S>,
}

impl<S: VersionStore> Story<'_, S> {
    pub(crate) fn begin<K: Begin>(&mut self, what: &str) -> Option<Ticket<K>> {
        match Ticket::begin(&mut self.catalogue) {
            Ok(ticket) => {
                self.report.step(what, of_begin(Ok(ticket.number())));
                Some(ticket)
            }
            Err(refusal) => {
                self.report.step(what, of_begin(Err(refusal)));
                None
            }
        }
    }

    pub(crate) fn read<K: TicketKind>(&mut self, who: &str, ticket: &Ticket<K>, folder: Folder)
        requires { K.reads ≡ true }
    {
        let found = ticket.read(&mut self.catalogue, folder.key, folder.node);
        self.report
            .step(format_args!("{who} reads {folder}"), of_read(found));
    }

    pub(crate) fn write<K: TicketKind>(
        &mut self,
        ticket: &Ticket<K>,
        folder: Folder,
        value: StoredValue,
    )
        requires { K.writes ≡ true }
    {
        let wrote = ticket.write(&mut self.catalogue, folder.key, value);
        self.report
            .step(format_args!("write {value} to {folder}"), of_done(wrote));
    }

    pub(crate) fn offer(&mut self, ticket: UpdateTicket) -> OfferedTicket {
        let (offered, polls) = ticket.offer(&mut self.catalogue);
        self.report.step("offer the update", of_offer(polls));
        offered
    }

    pub(crate) fn vote(&mut self, t: TransactionNumber, p: NodeNumber) {
        let vote = self.catalogue.prepare(t, p);
        self.report
            .step(format_args!("node {p} votes"), of_prepare(vote));
    }

    pub(crate) fn decide(&mut self, ticket: OfferedTicket) {
        let decision = ticket.decide(&mut self.catalogue);
        self.report.step("decide the update", of_decide(decision));
    }

    pub(crate) fn learn(&mut self, t: TransactionNumber, p: NodeNumber) {
        let learned = self.catalogue.learn(t, p);
        self.report
            .step(format_args!("node {p} learns"), of_done(learned));
    }

    /// A node learns of a decided update and applies what waits there.
    pub(crate) fn apply(&mut self, t: TransactionNumber, p: NodeNumber) {
        self.learn(t, p);
        let applied = self.catalogue.apply(p);
        self.report
            .step(format_args!("node {p} applies"), of_apply(applied));
    }

    pub(crate) fn cancel<K: Cancel>(&mut self, what: &str, ticket: Ticket<K>) {
        let cancelled = ticket.cancel(&mut self.catalogue);
        self.report
            .step(format_args!("cancel {what}"), of_done(cancelled));
    }

    pub(crate) fn finish(&mut self, who: &str, ticket: SearchTicket) {
        let finished = ticket.finish(&mut self.catalogue);
        self.report
            .step(format_args!("finish {who}"), of_done(finished));
    }
}
