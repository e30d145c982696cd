// Version stores: what a store means, the trait that every store meets, and code over any of them.
#![tactic(auto)]

ghost use Rattle.std.specs.Prelude.{◌≡◌, ℕ, ◌+◌, ◌^◌, ◌<◌, length, is_ok, IfOk, if◌then◌else◌};
ghost use Rattle.store.specs.Model.{Meaning, FreeRule, fresh, nth_answer, aside_granted, aside_after, aside_there, back_after, put_after};
ghost use Rattle.store.specs.Index.{index_of};
ghost use Rattle.store.specs.Runs.{StoresRemember};

use std::alloc::{AllocError, Global};

pub mod batch;

// The number of a transaction; 0 stands for the first version's writer.
pub type TransactionNumber = u8;

// One version of a key: its value, and the transaction that wrote it.
#[derive(Clone, Copy)]
pub struct Version {
    pub value: u64,
    pub writer: TransactionNumber,
}

// The version that every chain begins with. It takes no place.
pub const FIRST_VERSION: Version = Version {
    value: 0,
    writer: 0,
};

// A version as value and writer.
impl From<Version> for (u64, TransactionNumber) {
    ghost from_gives = { λ version pair. pair ≡ (version.value, version.writer) };

    fn from(version: Version) -> (u64, TransactionNumber) {
        (version.value, version.writer)
    }
}

// What a store answers where it refuses: which call it was says why.
#[derive(Clone, Copy, Debug)]
pub struct StoreRefusal;

// Where the chain of a node and a key stands in a row of all 512 of them. Node and key are two plain numbers throughout: a store is
// asked for any two, and a struct of them would be taken apart at each use.
pub fn chain_index(node: u8, key: u8) -> Option<usize>
    ensures { result ≡ index_of node key }
{
    if node < 8 && key < 64 {
        Some(usize::from(node) * 64 + usize::from(key))
    } else {
        None
    }
}

// The rule for free places is a member of the store's value, so that a store may have a depth of its own; that no call
// changes the rule is a clause of each call.
pub trait VersionStore: Sized + Drop {
    // What the store holds: for each node and key a chain of versions and the places set aside.
    ghost meaning: { Self → Meaning };

    // How many places are free, worked out from what the store holds.
    ghost free: { Self → FreeRule };

    // An empty store. All memory is taken here.
    fn new(heap: Global) -> Result<Self, AllocError>
        ensures value { IfOk result (λ s. meaning s ≡ fresh) };

    // The newest version of a key at a node, as value and writer.
    fn newest(&self, node: u8, key: u8) -> Option<(u64, TransactionNumber)>
        ensures { result ≡ nth_answer (meaning self.now) node key 0 }
    {
        self.nth(node, key, 0)
    }

    // The version that is so many steps older than the newest.
    fn nth(&self, node: u8, key: u8, steps: usize) -> Option<(u64, TransactionNumber)>
        ensures { result ≡ nth_answer (meaning self.now) node key steps };

    // Sets one free place aside for a key at a node.
    fn set_aside(&mut self, node: u8, key: u8) -> Result<(), StoreRefusal>
        ensures answer { is_ok result ≡ aside_granted (free self.old) (meaning self.old) node key }
        ensures after { meaning self.new ≡ aside_after (free self.old) (meaning self.old) node key }
        ensures rule { free self.new ≡ free self.old }
        ensures room { free self.new (meaning self.new) node key + (if is_ok result then 1 else 0) ≡ free self.old (meaning self.old) node key };

    // Gives one place back that was set aside for the key at the node.
    fn give_back(&mut self, node: u8, key: u8) -> Result<(), StoreRefusal>
        ensures answer { is_ok result ≡ aside_there (meaning self.old) node key }
        ensures after { meaning self.new ≡ back_after (meaning self.old) node key }
        ensures rule { free self.new ≡ free self.old }
        ensures room { free self.new (meaning self.new) node key ≡ free self.old (meaning self.old) node key + (if is_ok result then 1 else 0) };

    // Turns one place set aside into the newest version.
    fn put(&mut self, node: u8, key: u8, version: Version) -> Result<(), StoreRefusal>
        ensures answer { is_ok result ≡ aside_there (meaning self.old) node key }
        ensures after { meaning self.new ≡ put_after (meaning self.old) node key version }
        ensures rule { free self.new ≡ free self.old }
        ensures room { free self.new (meaning self.new) node key ≡ free self.old (meaning self.old) node key };

    // A chain can be walked with a counter of 32 bits.
    ghost short: { (s : Self) (n k : ℕ) → length (meaning s n k).versions < 2 ^ 32 };
}

// After any list of calls on a new store, whichever were refused, each chain lists what was put there, and the places
// set aside are those granted and not used up.
pub fn stores_remember()
    ensures { StoresRemember }
{}
