// One chain of the shelf, read and replaced.
ghost use Rattle.std.specs.Prelude.{◌≡◌, true, false, is_ok, if◌then◌else◌, Some, None};
ghost use Rattle.std.specs.Fn.{FnOnceReturnsAtMut};
ghost use Rattle.std.specs.Option.{option_map};
ghost use Rattle.store.specs.Model.{in_range, with_chain};
ghost use Rattle.shelf.specs.Slots.{chain_of};
ghost use Rattle.shelf.specs.Table.{shelf_meaning};

use super::Shelf;
use crate::slots::Slots;
use store::{StoreRefusal, chain_index};

impl Shelf {
    // The places of a node's and key's chain.
    #[tactic(auto, using(crate::proofs::Rows::slots_read), unfolding(crate::specs::Table::shelf_meaning))]
    pub(crate) fn slots(&self, node: u8, key: u8) -> Option<Slots>
        ensures { option_map chain_of result ≡ (if in_range node key then Some (shelf_meaning self.now node key) else None) }
    {
        let i = chain_index(node, key)?;
        Some(self.chains[i])
    }

    // Replaces the chain of a node and key.
    #[tactic(auto, using(crate::proofs::Rows::slots_written), unfolding(crate::specs::Table::shelf_meaning))]
    pub(crate) fn set_slots(&mut self, node: u8, key: u8, slots: Slots)
        ensures { shelf_meaning self.new ≡ (if in_range node key then with_chain (shelf_meaning self.old) node key (chain_of slots) else shelf_meaning self.old) }
    {
        if let Some(i) = chain_index(node, key) {
            self.chains[i] = slots;
        }
    }

    // Changes the chain of a node and key by `change`, unless that refuses.
    pub(crate) fn change<F: FnOnce(&mut Slots) -> Result<(), StoreRefusal>>(
        &mut self,
        node: u8,
        key: u8,
        change: F,
    ) -> Result<(), StoreRefusal>
        requires { F.IsAlwaysCallable change }
        ensures inside { in_range node key ≡ true → (x : Slots) × (y : Slots) × (chain_of x ≡ shelf_meaning self.old node key) × FnOnceReturnsAtMut F.FnOnce change x result y × (shelf_meaning self.new ≡ (if is_ok result then with_chain (shelf_meaning self.old) node key (chain_of y) else shelf_meaning self.old)) }
        ensures outside { in_range node key ≡ false → (is_ok result ≡ false) × (shelf_meaning self.new ≡ shelf_meaning self.old) }
    {
        let mut slots = self.slots(node, key).ok_or(StoreRefusal)?;
        change(&mut slots)?;
        self.set_slots(node, key, slots);
        Ok(())
    }
}
