// The chains of all nodes and keys.
ghost use Rattle.std.specs.Prelude.{◌≡◌, vec_len};

use crate::slots::Slots;

mod access;
pub mod calls;

// One chain for each node and key; `store::chain_index` says where it stands.
#[derive(Drop)]
pub struct Shelf {
    chains: Vec<Slots>,
    ghost whole: { vec_len chains ≡ 512 },
}
