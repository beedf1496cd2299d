//! The cache of the store's blocks: blocks that are pinned, by their addresses, and clean ones, by
//! their places, of which the last used stay.
#![tactic(auto)]

ghost use Rattle.std.specs.Prelude.{◌≡◌, ℕ, ◌≤◌, [], None, IfOk, OnOk, OnErr, option_map};
ghost use Rattle.std.specs.Prelude.{option_copied, length};

use lru::LruCache;
use sea_base::{Block, Commit, Laddr, NoMemory, Paddr};
use std::alloc::Global;
use std::collections::BTreeMap;
use std::num::NonZeroUsize;

/// Blocks in memory. A pinned one stays until it is unpinned; of the clean ones the last used stay,
/// as many as the limit says.
#[derive(Drop)]
pub struct Cache {
    pinned: BTreeMap<u64, (Block, Commit)>,
    clean: LruCache<u32, Block>,
}

impl Cache {
    ghost use Rattle.std.specs.Borrow.{sem};
    ghost use Rattle.sea_cache.specs.Cache.{Pins, Cleans, CleansOnce, pinned_of, clean_of};
    ghost use Rattle.sea_cache.specs.Cache.{limit_of, block_at, without, used, kept};

    /// An empty cache for at most `limit` clean blocks, which is 1 or more.
    pub fn new(alloc: Global, limit: u32) -> Result<Cache, NoMemory>
        requires { 1 ≤ limit }
        ensures pinned { IfOk result (λ cache. (at : ℕ) → pinned_of cache at ≡ None) }
        ensures clean { IfOk result (λ cache. clean_of cache ≡ []) }
        ensures limit { IfOk result (λ cache. limit_of cache ≡ limit) }
    {
        let Some(limit) = NonZeroUsize::new(limit as usize) else {
            unreachable!()
        };
        Ok(Cache {
            pinned: BTreeMap::new(alloc),
            clean: LruCache::sparse(alloc, limit)?,
        })
    }

    /// Keeps a block with its version under an address, in the place of what was pinned there.
    pub fn pin(&mut self, at: Laddr, block: Block, version: Commit) -> Result<(), NoMemory>
        ensures ok { OnOk result (Pins at.0 (Some (block, version)) self.old self.new) }
        ensures err { OnErr result (Pins at.0 (pinned_of self.old at.0) self.old self.new) }
    {
        self.pinned.insert(at.0, (block, version))?;
        Ok(())
    }

    /// The block that is pinned at an address, and its version.
    pub fn pinned(&self, at: Laddr) -> Option<(&Block, Commit)>
        ensures { option_map (λ found. (found.0.now, found.1)) result ≡ pinned_of self.now at.0 }
    {
        let (block, version) = self.pinned.get(&at.0)?;
        Some((block, *version))
    }

    /// Nothing is pinned at an address any more.
    pub fn unpin(&mut self, at: Laddr)
        ensures { Pins at.0 None self.old self.new }
    {
        self.pinned.remove(&at.0);
    }

    /// The clean block of a place, which counts as used.
    pub fn clean(&mut self, at: Paddr) -> Option<&Block>
        ensures* used { sem 𝓛 (CleansOnce self.entry (used (clean_of self.old) at.0)) }
        ensures found { option_copied result ≡ block_at (clean_of self.old) at.0 }
    {
        self.clean.promote(&at.0);
        self.clean.peek(&at.0)
    }

    /// How many clean blocks there are, which is the limit at most.
    pub fn count(&self) -> usize
        ensures count { result ≡ length (clean_of self.now) }
        ensures within { result ≤ limit_of self.now }
    {
        self.clean.len()
    }

    /// Keeps a clean block for a place, in the stead of an older one, as the last used. Of more
    /// than the limit the one goes that was not used for the longest time.
    pub fn keep(&mut self, at: Paddr, block: Block) -> Result<(), NoMemory>
        ensures ok { OnOk result (Cleans (kept (clean_of self.old) (limit_of self.old) at.0 block)
            self.old self.new) }
        ensures err { OnErr result (Cleans (clean_of self.old) self.old self.new) }
    {
        self.clean.put(at.0, block)?;
        Ok(())
    }

    /// No block is kept for a place any more.
    pub fn forget(&mut self, at: Paddr)
        ensures { Cleans (without (clean_of self.old) at.0) self.old self.new }
    {
        self.clean.pop(&at.0);
    }
}

#[cfg(test)]
mod tests;
