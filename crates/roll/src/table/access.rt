// The parts of a roll, read and written.
ghost use Rattle.std.specs.Prelude.{◌≡◌, ◌+◌, ◌<◌, ◌≤◌, true, ◌∷◌, slice_get, IfSome, if◌then◌else◌, Some, None};
ghost use Rattle.store.specs.Model.{in_range, with_chain};
ghost use Rattle.roll.specs.Totals.{room};
ghost use Rattle.roll.specs.Table.{roll_meaning};

use super::{PLACES, Roll};
use crate::entry::Entry;
use store::{FIRST_VERSION, Version, chain_index};

impl Roll {
    // How many places are free.
    #[tactic(auto, using(crate::specs::Moves::room_is))]
    pub(crate) fn places_left(&self) -> usize
        ensures { result ≡ room 512 (roll_meaning self.now) }
    {
        PLACES - self.entries.len() - self.total
    }

    // How many places are set aside for a node and key.
    pub(crate) fn aside_at(&self, node: u8, key: u8) -> Option<usize>
        ensures value { result ≡ (if in_range node key then Some (roll_meaning self.now node key).aside else None) }
        ensures bound { IfSome result (λ places. places ≤ 512) }
    {
        let i = chain_index(node, key)?;
        Some(self.chains[i].aside)
    }

    // Has so many places set aside for a node and key, which the free places must allow.
    #[tactic(auto, using(crate::specs::Moves::written, crate::specs::Moves::written_room))]
    pub(crate) fn set_aside_at(&mut self, node: u8, key: u8, places: usize)
        requires within { in_range node key ≡ true }
        requires allowed { places ≤ (roll_meaning self.old node key).aside + room 512 (roll_meaning self.old) }
        ensures after { roll_meaning self.new ≡ with_chain (roll_meaning self.old) node key (record { versions = (roll_meaning self.old node key).versions; aside = places }) }
        ensures room { room 512 (roll_meaning self.new) + places ≡ room 512 (roll_meaning self.old) + (roll_meaning self.old node key).aside }
    {
        if let Some(i) = chain_index(node, key) {
            let chain = &mut self.chains[i];
            self.total = self.total - chain.aside + places;
            chain.aside = places;
        }
    }

    // Adds the newest version of a node and key, which takes a free place.
    pub(crate) fn push(&mut self, node: u8, key: u8, version: Version)
        requires within { in_range node key ≡ true }
        requires free { 0 < room 512 (roll_meaning self.old) }
        ensures after { roll_meaning self.new ≡ with_chain (roll_meaning self.old) node key (record { versions = version ∷ (roll_meaning self.old node key).versions; aside = (roll_meaning self.old node key).aside }) }
        ensures room { room 512 (roll_meaning self.new) + 1 ≡ room 512 (roll_meaning self.old) }
    {
        if let Some(i) = chain_index(node, key) {
            let chain = &mut self.chains[i];
            let older = chain.newest;
            chain.newest = Some(self.entries.len());
            self.entries.push_reserved(Entry {
                node,
                key,
                version,
                older,
            });
        }
    }

    // The version that is so many steps older than the newest of a node and key: so many links from its newest entry, and
    // the first version at the end of the chain.
    pub(crate) fn nth_version(&self, node: u8, key: u8, steps: usize) -> Option<Version>
        ensures { result ≡ (if in_range node key then slice_get (roll_meaning self.now node key).versions steps else None) }
    {
        let mut place = self.chains[chain_index(node, key)?].newest;
        // So many steps and no items: an iterator of links would carry the same place in a closure.
        for _ in 0..steps {
            place = self.entries[place?].older;
        }
        // No `map_or`: its closure would need a clause of its own on `i`.
        match place {
            Some(i) => Some(self.entries[i].version),
            None => Some(FIRST_VERSION),
        }
    }
}
