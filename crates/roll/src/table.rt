// The roll, and the chains in it.
ghost use Rattle.std.specs.Prelude.{◌≡◌, ◌+◌, ◌≤◌, vec_len, vec_capacity};
ghost use Rattle.std.proofs.Props.{props};
ghost use Rattle.store.specs.Model.{stored, set_aside};
ghost use Rattle.roll.specs.Totals.{total_of};
ghost use Rattle.roll.specs.Entries.{entered};
ghost use Rattle.roll.specs.Links.{asides_of, HeadsNameNewest, LinksNameOlder};

use crate::entry::Entry;
use crate::head::ChainHead;

mod access;
pub mod calls;

// How many places the roll has.
pub const PLACES: usize = 512;

// The versions of all chains in one roll, the oldest first; for each chain, at its index, its newest entry and the places
// set aside; and the running total of these. Following the links from a chain's newest entry leads through its entries.
#[derive(Drop)]
pub struct Roll {
    entries: Vec<Entry>,
    chains: Vec<ChainHead>,
    total: usize,
    ghost roomy: { 512 ≤ vec_capacity entries },
    ghost whole: { vec_len chains ≡ 512 },
    ghost fits: { vec_len entries + total ≤ 512 },
    ghost counted: { total_of stored (entered entries.items (asides_of chains.items)) ≡ vec_len entries },
    ghost summed: { total_of set_aside (entered entries.items (asides_of chains.items)) ≡ total },
    ghost headed: { HeadsNameNewest chains.items entries.items } by { Prim.hlevel props },
    ghost linked: { LinksNameOlder entries.items } by { Prim.hlevel props },
}
