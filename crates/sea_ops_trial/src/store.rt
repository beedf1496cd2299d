//! A store of objects in a space.
ghost use Rattle.std.specs.Prelude.{◌+◌, ◌*◌, ◌^◌, ◌≤◌, IsTrue};

use crate::fault::TrialFault;
use sea_base::Space;
#[cfg(test)]
use sea_base::{Block, Laddr};
use sea_object::{Item, Op};
use sea_ops::exec;
use std::alloc::Global;

/// A store of objects in a space, which nothing else shares.
#[derive(Drop)]
pub struct ObjectStore<S: Space + Drop> {
    alloc: Global,
    space: S,
    done: u32,
    ghost ready: { IsTrue (S.ready space) },
    ghost low: { (S.seen space).next ≤ 2 + done * 2 ^ 21 },
}

impl<S: Space + Drop> ObjectStore<S> {
    /// The store in a space whose next address is 2.
    pub fn new(alloc: Global, space: S) -> ObjectStore<S>
        requires ready { IsTrue (S.ready space) }
        requires low { (S.seen space).next ≤ 2 }
    {
        ObjectStore {
            alloc,
            space,
            done: 0,
        }
    }

    /// Does an operation.
    pub fn exec(&mut self, op: &Op) -> Result<Item, TrialFault> {
        if !op.has_good_range() || !op.has_good_values() || op.key_weight() > 32 {
            return Err(TrialFault::BeyondLimits);
        }
        self.done = self.done.checked_add(1).ok_or(TrialFault::TooMany)?;
        Ok(exec(self.alloc, &mut self.space, op)?)
    }

    /// The space.
    #[cfg(test)]
    pub fn space(&self) -> &S {
        &self.space
    }

    /// The block at an address, or nothing.
    #[cfg(test)]
    pub fn block_at(&mut self, at: Laddr) -> Result<Option<Block>, TrialFault> {
        Ok(self.space.get(at)?)
    }

    /// Places a block at an address, or leaves nothing there.
    #[cfg(test)]
    pub fn place(&mut self, at: Laddr, block: Option<Block>) -> Result<(), TrialFault> {
        match block {
            Some(block) => Ok(self.space.put(at, block)?),
            None => Ok(self.space.drop_at(at)?),
        }
    }

    /// The next address, which nothing gets any more.
    #[cfg(test)]
    pub fn next_address(&mut self) -> Result<Laddr, TrialFault> {
        self.done = self.done.checked_add(1).ok_or(TrialFault::TooMany)?;
        Ok(self.space.alloc(1)?)
    }
}
