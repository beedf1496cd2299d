//! A tree of physical nodes over blocks in memory.
ghost use Rattle.std.specs.Prelude.{◌≤◌, ◌+◌, ◌^◌, IfOk};

use crate::blocks::MemBlocks;
use crate::fault::TrialFault;
use sea_base::{PRoot, Paddr, Slot, Sum};
use sea_ptree::{Fresh, Kind, Run, get, merge, relocate, walk};
use std::alloc::Global;

/// The blocks that a tree may have: 2^24.
const MOST_BLOCKS: usize = 16_777_216;

/// What a change made: how many fresh nodes, and the places of those that are dead.
#[derive(Debug, Drop)]
pub struct Change {
    /// How many nodes are fresh.
    pub fresh: usize,
    /// The places of the dead ones.
    pub dead: Vec<Paddr>,
}

/// A mapping in memory. Its fresh nodes stand behind all blocks that there are.
#[derive(Drop)]
pub struct MapTree {
    alloc: Global,
    /// Its blocks.
    pub blocks: MemBlocks,
    root: PRoot,
    ghost low: { root.height ≤ 8 },
}

impl MapTree {
    /// An empty tree.
    pub fn new(alloc: Global) -> MapTree {
        MapTree {
            alloc,
            blocks: MemBlocks::new(alloc, None),
            root: PRoot {
                at: Paddr(0),
                height: 0,
                sum: Sum(0),
            },
        }
    }

    /// The root.
    pub fn root(&self) -> PRoot {
        self.root
    }

    /// The slot of a key.
    pub fn get(&mut self, key: u64) -> Result<Option<Slot>, TrialFault> {
        Ok(get(&mut self.blocks, Kind::Mapping, self.root, key)?)
    }

    /// The first pairs with keys from one on, at most 64.
    pub fn walk(&mut self, from: u64) -> Result<Run, TrialFault> {
        Ok(walk(
            self.alloc,
            &mut self.blocks,
            Kind::Mapping,
            self.root,
            from,
            64,
        )?)
    }

    /// Lays a run over the tree.
    pub fn merge(&mut self, run: &Run) -> Result<Change, TrialFault> {
        let place = self.next_place()?;
        let fresh = merge(
            self.alloc,
            &mut self.blocks,
            Kind::Mapping,
            self.root,
            run,
            place,
        )?;
        self.take_in(fresh)
    }

    /// Writes the node of a level on the path of a key anew.
    pub fn relocate(&mut self, key: u64, level: u32) -> Result<Change, TrialFault> {
        if level >= self.root.height {
            return Err(TrialFault::NoLevel);
        }
        let place = self.next_place()?;
        let kind = Kind::Mapping;
        let fresh = relocate(
            self.alloc,
            &mut self.blocks,
            kind,
            self.root,
            key,
            level,
            place,
        )?;
        self.take_in(fresh)
    }

    // The place behind all blocks, with room for 17 more.
    fn next_place(&self) -> Result<Paddr, TrialFault>
        ensures { IfOk result (λ place. place.0 + 17 ≤ 2 ^ 24) }
    {
        let place = self.blocks.len();
        if place > MOST_BLOCKS - 17 {
            return Err(TrialFault::TooMany);
        }
        Ok(Paddr(place as u32))
    }

    // Lays the fresh nodes, under their root, and drops the dead ones.
    fn take_in(&mut self, fresh: Fresh) -> Result<Change, TrialFault>
        requires { fresh.root.height ≤ 8 }
    {
        let Fresh { root, nodes, dead } = fresh;
        let nodes = nodes.into_vec();
        let count = nodes.len();
        self.root = root;
        for block in nodes {
            self.blocks.lay(block)?;
        }
        let dead = dead.into_vec();
        for at in &dead {
            self.blocks.drop_at(*at);
        }
        Ok(Change { fresh: count, dead })
    }
}
