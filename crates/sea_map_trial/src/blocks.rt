//! Blocks in memory.
ghost use Rattle.sea_ptree.specs.Blocks.{HasSum};

use sea_base::{Block, NoMemory, Paddr, SpaceFault, Sum, sum_of};
use sea_ptree::{Blocks, Checked};
use std::alloc::Global;

/// A block that was checked, with its sum.
#[derive(Drop)]
pub struct Kept {
    checked: Checked,
    sum: Sum,
    ghost holds: { HasSum checked sum.0 },
}

impl Kept {
    /// The block, which is checked here, with its sum, which is computed here.
    pub fn new(block: Block) -> Kept {
        let sum = sum_of(&block);
        let checked = Checked::new(block);
        Kept { checked, sum }
    }
}

/// Blocks in memory, from place 0 on, but for those that were dropped. They aren't told, so that
/// tests may lay any block anywhere.
#[derive(Drop)]
pub struct MemBlocks {
    blocks: Vec<Option<Kept>>,
    fails: Option<Paddr>,
    faults: u64,
}

impl MemBlocks {
    /// No blocks. A read of the block at `fails` fails.
    pub fn new(alloc: Global, fails: Option<Paddr>) -> MemBlocks {
        MemBlocks {
            blocks: Vec::new(alloc),
            fails,
            faults: 0,
        }
    }

    /// How many blocks there are, which is the place of the next one.
    pub fn len(&self) -> usize {
        self.blocks.len()
    }

    /// How many reads failed.
    pub fn faults(&self) -> u64 {
        self.faults
    }

    /// From now on a read of the block at this place fails.
    pub fn fail_at(&mut self, at: Paddr) {
        self.fails = Some(at);
    }

    /// Lays a block behind the others.
    pub fn lay(&mut self, block: Block) -> Result<(), NoMemory> {
        self.blocks.push(Some(Kept::new(block)))?;
        Ok(())
    }

    /// Drops the block at this place. From now on a read of it fails.
    pub fn drop_at(&mut self, at: Paddr) {
        if let Some(kept) = self.blocks.get_mut(at.0 as usize) {
            *kept = None;
        }
    }
}

impl Blocks for MemBlocks {
    ghost use Rattle.sea_ptree.specs.Blocks.{Held};
    ghost use Rattle.std.specs.Prelude.{false, []};

    ghost held = { λ s. record { image = λ _. []; tells = false; faults = s.faults } };

    fn block(&mut self, at: Paddr, sum: Sum) -> Result<Checked, SpaceFault> {
        if self.fails == Some(at) {
            self.faults = self.faults.saturating_add(1);
            return Err(SpaceFault::DeviceFault);
        }
        let Some(Some(kept)) = self.blocks.get(at.0 as usize) else {
            self.faults = self.faults.saturating_add(1);
            return Err(SpaceFault::DeviceFault);
        };
        if kept.sum != sum {
            return Err(SpaceFault::Damaged {
                block: at,
                kept: sum,
                found: kept.sum,
            });
        }
        Ok(kept.checked.share()?)
    }
}
