//! The blocks of a store.
ghost use Rattle.std.specs.Prelude.{◌≡◌, ◌≢◌, ◌↔◌, ℕ, Some, None, OnOk, IfOk, if◌then◌else◌, ◌==◌};
ghost use Rattle.std.specs.Option.{option_copied};
ghost use Rattle.std.specs.List.{Contains};
ghost use Rattle.sea_formed.specs.Blocks.{store_of};

use sea_base::{Block, NoMemory};
use std::alloc::Global;
use std::collections::BTreeMap;

/// The blocks of a store, by their addresses.
#[derive(Debug, Drop)]
pub struct Blocks {
    blocks: BTreeMap<u64, Block>,
}

impl Blocks {
    /// No block. It takes no memory.
    pub fn new(alloc: Global) -> Blocks
        ensures { (at : ℕ) → store_of result at ≡ None }
    {
        Blocks {
            blocks: BTreeMap::new(alloc),
        }
    }

    /// Places a block.
    pub fn insert(&mut self, at: u64, block: Block) -> Result<(), NoMemory>
        ensures { OnOk result ((q : ℕ)
            → store_of self.new q ≡ (if q == at then Some block else store_of self.old q)) }
    {
        self.blocks.insert(at, block)?;
        Ok(())
    }

    /// Leaves nothing at an address.
    pub fn remove(&mut self, at: u64)
        ensures { (q : ℕ)
            → store_of self.new q ≡ (if q == at then None else store_of self.old q) }
    {
        self.blocks.remove(&at);
    }

    /// The block at an address.
    pub fn get(&self, at: u64) -> Option<&Block>
        ensures { option_copied result ≡ store_of self.now at }
    {
        self.blocks.get(&at)
    }

    /// The addresses that are filled, in order.
    pub(crate) fn filled(&self, alloc: Global) -> Result<Vec<u64>, NoMemory>
        ensures { IfOk result (λ filled. (at : ℕ)
            → Contains filled.items at ↔ (store_of self.now at ≢ None)) }
    {
        Ok(self.blocks.keys().copied().collect(alloc)?)
    }
}
