//! Blocks of 4,096 bytes.
ghost use Rattle.std.specs.Prelude.{◌≡◌, ◌≤◌, length, IfOk, slice_range};

use crate::{Data, Duplicate, NoMemory};
use bytes::Bytes;
use std::alloc::Global;
use std::marker::Model;

/// The bytes of a block.
pub const BLOCK_BYTES: usize = 4096;

/// A block of 4,096 bytes, which contracts see as the list of its bytes. A copy shares them.
#[derive(Debug, Drop)]
pub struct Block {
    bytes: Bytes,
}

impl Model for Block {
    ghost use Rattle.std.specs.Prelude.{◌≡◌, List, ℕ, length};

    ghost Value = { List ℕ };

    ghost view = { λ b. b.bytes };

    ghost invariant = { λ b. length b.bytes ≡ 4096 };
}

impl Block {
    /// The block of these bytes.
    pub fn new(alloc: Global, bytes: &[u8]) -> Result<Block, NoMemory>
        requires { length bytes.now ≡ 4096 }
        ensures { IfOk result (λ block. block ≡ bytes.now) }
    {
        let bytes = Bytes::copy_from_slice(alloc, bytes)?;
        Ok(Block { bytes })
    }

    /// The block of the bytes of a vector, of which none is copied.
    pub fn from_vec(bytes: Vec<u8>) -> Result<Block, NoMemory>
        requires { length bytes.items ≡ 4096 }
        ensures { IfOk result (λ block. block ≡ bytes.items) }
    {
        let bytes = Bytes::from_vec(bytes)?;
        Ok(Block { bytes })
    }

    /// The bytes between two places, which the block shares.
    pub fn part(&self, from: usize, to: usize) -> Result<Data, NoMemory>
        requires order { from ≤ to }
        requires within { to ≤ 4096 }
        ensures { IfOk result (λ part. part ≡ slice_range self.now from to) }
    {
        let bytes = self.bytes.slice(from..to)?;
        Ok(Data::sharing(bytes))
    }

    /// An equal block, which shares the bytes.
    pub fn share(&self) -> Result<Block, NoMemory>
        ensures { IfOk result (λ block. block ≡ self.now) }
    {
        let bytes = self.bytes.clone()?;
        Ok(Block { bytes })
    }

    /// The bytes, of which there are 4,096.
    pub fn bytes(&self) -> &[u8]
        ensures bytes { result.now ≡ self.now }
        ensures length { length self.now ≡ 4096 }
    {
        self.bytes.as_slice()
    }
}

impl Duplicate for Block {
    fn copy(&self) -> Result<Block, NoMemory> {
        self.share()
    }
}
