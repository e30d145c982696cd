// The shelf as a version store.
ghost use Rattle.shelf.specs.Slots.{shelf_free};
ghost use Rattle.shelf.specs.Table.{shelf_meaning};
ghost use Rattle.shelf.specs.Lengths.{all_short};

use super::Shelf;
use crate::slots::Slots;
use std::alloc::{AllocError, Global};
use store::{StoreRefusal, TransactionNumber, Version, VersionStore};

impl VersionStore for Shelf {
    ghost meaning = { shelf_meaning };

    ghost free = { λ s. shelf_free };

    ghost short = { unfold shelf_meaning in λ s n k. all_short s.chains.items n k };

    fn new(heap: Global) -> Result<Shelf, AllocError> {
        Ok(Shelf {
            chains: vec![in heap; Slots::new(); 512]?,
        })
    }

    fn nth(&self, node: u8, key: u8, steps: usize) -> Option<(u64, TransactionNumber)> {
        self.slots(node, key)?.nth(steps)
    }

    fn set_aside(&mut self, node: u8, key: u8) -> Result<(), StoreRefusal> {
        self.change(node, key, |slots| slots.set_aside())
    }

    fn give_back(&mut self, node: u8, key: u8) -> Result<(), StoreRefusal> {
        self.change(node, key, |slots| slots.give_back())
    }

    fn put(&mut self, node: u8, key: u8, version: Version) -> Result<(), StoreRefusal> {
        self.change(node, key, |slots| slots.put(version))
    }
}
