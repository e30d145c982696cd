//! Tickets: a transaction that is begun by ticket has to be ended, or the program is not proved.
#![tactic(auto)]

pub mod kinds;
mod sealed;
pub mod ticket;
