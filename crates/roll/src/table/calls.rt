// The roll as a version store.
ghost use Rattle.std.specs.Prelude.{◌≡◌, replicate, IfOk};
ghost use Rattle.store.specs.Model.{fresh};
ghost use Rattle.roll.specs.Totals.{room, roll_free};
ghost use Rattle.roll.specs.Table.{roll_meaning};
ghost use Rattle.roll.specs.Moves.{chains_short};

use super::{PLACES, Roll};
use crate::head::EMPTY_CHAIN;
use std::alloc::{AllocError, Global};
use store::{StoreRefusal, TransactionNumber, Version, VersionStore};

impl VersionStore for Roll {
    ghost meaning = { roll_meaning };

    ghost free = { λ s. roll_free };

    ghost short = { chains_short };

    fn new(heap: Global) -> Result<Roll, AllocError>
        ensures value { IfOk result (λ s. roll_meaning s ≡ fresh) }
        ensures room { IfOk result (λ s. room 512 (roll_meaning s) ≡ 512) }
    {
        Ok(Roll {
            entries: Vec::with_capacity(heap, PLACES)?,
            chains: vec![in heap; EMPTY_CHAIN; 512]?,
            total: 0,
        })
    }

    #[tactic(auto, using(crate::proofs::Walk::nth_is))]
    fn nth(&self, node: u8, key: u8, steps: usize) -> Option<(u64, TransactionNumber)> {
        self.nth_version(node, key, steps)
            .map(|version| version.into())
    }

    fn set_aside(&mut self, node: u8, key: u8) -> Result<(), StoreRefusal> {
        let had = self.aside_at(node, key).ok_or(StoreRefusal)?;
        if self.places_left() == 0 {
            return Err(StoreRefusal);
        }
        self.set_aside_at(node, key, had + 1);
        Ok(())
    }

    fn give_back(&mut self, node: u8, key: u8) -> Result<(), StoreRefusal> {
        let had = self.aside_at(node, key).ok_or(StoreRefusal)?;
        if had == 0 {
            return Err(StoreRefusal);
        }
        self.set_aside_at(node, key, had - 1);
        Ok(())
    }

    fn put(&mut self, node: u8, key: u8, version: Version) -> Result<(), StoreRefusal> {
        self.give_back(node, key)?;
        self.push(node, key, version);
        Ok(())
    }
}
