// What can be done with one chain.
ghost use Rattle.std.specs.Prelude.{◌≡◌, ◌+◌, is_ok, if◌then◌else◌, nat_lt};
ghost use Rattle.store.specs.Model.{nth_of, first_chain, one_aside, one_back, one_put};
ghost use Rattle.shelf.specs.Slots.{chain_of, places_left};

use super::{PLACES, Slots};
use store::{FIRST_VERSION, StoreRefusal, TransactionNumber, Version};

impl Slots {
    // The chain that holds the first version alone.
    pub fn new() -> Slots
        ensures { chain_of result ≡ first_chain }
    {
        Slots {
            versions: [FIRST_VERSION; PLACES],
            stored: 0,
            aside: 0,
        }
    }

    #[tactic(auto, using(crate::proofs::Stacks::nth_stored, crate::proofs::Stacks::nth_first, crate::proofs::Stacks::nth_past))]
    pub fn nth(&self, steps: usize) -> Option<(u64, TransactionNumber)>
        ensures { result ≡ nth_of (chain_of self.now).versions steps }
    {
        if steps < self.stored {
            Some(self.versions[self.stored - 1 - steps].into())
        } else if steps == self.stored {
            Some(FIRST_VERSION.into())
        } else {
            None
        }
    }

    // How many of the places are free.
    #[tactic(auto, using(crate::specs::Lengths::stack_length))]
    pub fn places_left(&self) -> usize
        ensures value { result ≡ places_left 4 (chain_of self.now) }
        ensures count { result + self.now.stored + self.now.aside ≡ 4 }
    {
        PLACES - self.stored - self.aside
    }

    pub fn set_aside(&mut self) -> Result<(), StoreRefusal>
        ensures answer { is_ok result ≡ nat_lt 0 (places_left 4 (chain_of self.old)) }
        ensures after { chain_of self.new ≡ (if nat_lt 0 (places_left 4 (chain_of self.old)) then one_aside (chain_of self.old) else chain_of self.old) }
        ensures room { places_left 4 (chain_of self.new) + (if is_ok result then 1 else 0) ≡ places_left 4 (chain_of self.old) }
    {
        if self.places_left() == 0 {
            return Err(StoreRefusal);
        }
        self.aside += 1;
        Ok(())
    }

    #[tactic(auto, using(crate::specs::Lengths::stack_length))]
    pub fn give_back(&mut self) -> Result<(), StoreRefusal>
        ensures answer { is_ok result ≡ nat_lt 0 (chain_of self.old).aside }
        ensures after { chain_of self.new ≡ (if nat_lt 0 (chain_of self.old).aside then one_back (chain_of self.old) else chain_of self.old) }
        ensures room { places_left 4 (chain_of self.new) ≡ places_left 4 (chain_of self.old) + (if is_ok result then 1 else 0) }
    {
        if self.aside == 0 {
            return Err(StoreRefusal);
        }
        self.aside -= 1;
        Ok(())
    }

    #[tactic(auto, using(crate::specs::Lengths::stack_length, crate::proofs::Stacks::stack_put))]
    pub fn put(&mut self, version: Version) -> Result<(), StoreRefusal>
        ensures answer { is_ok result ≡ nat_lt 0 (chain_of self.old).aside }
        ensures after { chain_of self.new ≡ (if nat_lt 0 (chain_of self.old).aside then one_put version (chain_of self.old) else chain_of self.old) }
        ensures room { places_left 4 (chain_of self.new) ≡ places_left 4 (chain_of self.old) }
    {
        if self.aside == 0 {
            return Err(StoreRefusal);
        }
        self.versions[self.stored] = version;
        self.stored += 1;
        self.aside -= 1;
        Ok(())
    }
}
