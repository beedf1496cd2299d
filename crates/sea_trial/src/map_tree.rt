//! A tree in a space in memory.
ghost use Rattle.std.specs.Prelude.{◌+◌, ◌*◌, ◌^◌, ◌≤◌};
ghost use Rattle.sea_base.specs.MapSpace.{seen_of};

use crate::fault::TrialFault;
use sea_base::{Block, Data, Key, Laddr, MapSpace, Nths, Pairs, Space};
use sea_node::VALUE_BYTES;
use sea_tree::Checked;
use std::alloc::Global;

/// The address of the tree's root.
pub const ROOT: Laddr = Laddr(1);

/// A tree in a space in memory, which nothing else shares.
#[derive(Drop)]
pub struct MapTree {
    alloc: Global,
    space: MapSpace,
    changes: u32,
    ghost low: { (seen_of space).next ≤ 2 + changes * 2 ^ 20 },
}

impl MapTree {
    /// An empty tree. The space's gets listed in `fails`, counted from 1, will fail.
    pub fn new(alloc: Global, fails: Nths) -> MapTree {
        MapTree {
            alloc,
            space: MapSpace::new(alloc, fails),
            changes: 0,
        }
    }

    /// The space, with the tree in it.
    pub fn into_space(self) -> MapSpace {
        self.space
    }

    /// The value under a key.
    pub fn get(&mut self, key: &Key) -> Result<Option<Data>, TrialFault> {
        Ok(sea_tree::get(&mut self.space, ROOT, key)?)
    }

    /// The first `limit` pairs with keys above a bound, or with none all keys.
    pub fn range(&mut self, after: Option<&Key>, limit: u32) -> Result<Pairs, TrialFault> {
        Ok(sea_tree::range(self.alloc, &mut self.space, ROOT, after, limit)?)
    }

    /// Puts a value under a key, and answers the one that was there.
    pub fn put(&mut self, key: &Key, value: &Data) -> Result<Option<Data>, TrialFault> {
        if value.len() > VALUE_BYTES {
            return Err(TrialFault::LongValue);
        }
        self.changes = self.changes.checked_add(1).ok_or(TrialFault::TooMany)?;
        Ok(sea_tree::put(self.alloc, &mut self.space, ROOT, key, value)?)
    }

    /// Takes a key out, and answers the value that was there.
    pub fn del(&mut self, key: &Key) -> Result<Option<Data>, TrialFault> {
        self.changes = self.changes.checked_add(1).ok_or(TrialFault::TooMany)?;
        Ok(sea_tree::del(self.alloc, &mut self.space, ROOT, key)?)
    }

    /// The counts of the pairs and the nodes.
    pub fn check(&mut self) -> Result<Checked, TrialFault> {
        Ok(sea_tree::check(self.alloc, &mut self.space, ROOT)?)
    }

    /// Leaves nothing of the tree.
    pub fn drop_all(&mut self) -> Result<(), TrialFault> {
        Ok(sea_tree::drop_all(self.alloc, &mut self.space, ROOT)?)
    }

    /// The block at an address, or nothing.
    pub fn block_at(&mut self, at: Laddr) -> Result<Option<Block>, TrialFault> {
        Ok(self.space.get(at)?)
    }

    /// Places a block at an address.
    #[cfg(test)]
    pub fn place(&mut self, at: Laddr, block: Block) -> Result<(), TrialFault> {
        Ok(self.space.put(at, block)?)
    }

    /// The root's level, which its byte 4 tells, or 0 where the tree is empty.
    pub fn level(&mut self) -> Result<u8, TrialFault> {
        match self.block_at(ROOT)? {
            Some(root) => Ok(root.bytes()[4]),
            None => Ok(0),
        }
    }
}
