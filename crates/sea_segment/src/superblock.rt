//! The superblock, which says what the image is.
ghost use Rattle.std.specs.Prelude.{◌≡◌, ℕ, ◌↔◌, length, IfOk, IfSome, IfNone, IsTrue};
ghost use Rattle.sea_segment.specs.Superblock.{IsSegmentCount, IsSuperShape, SpellsAnySuper};
ghost use Rattle.sea_segment.specs.Superblock.{SpellsSuper};

use crate::seal::{is_sealed, seal};
use sea_base::{Block, NoMemory, is_zero, push_u32, u32_at};
use std::alloc::Global;

/// The number of this format.
pub const FORMAT: u32 = 1;

/// The fewest segments that an image has.
pub const MIN_SEGMENTS: u32 = 6;

/// The most segments that an image has.
pub const MAX_SEGMENTS: u32 = 8191;

const MAGIC: &[u8; 8] = b"SEASUPER";

const FRONT_BYTES: usize = 64;

/// A superblock of any format.
#[derive(Clone, Copy, Debug, PartialEq, Eq)]
pub struct AnySuper {
    /// The number of its format.
    pub format: u32,
    /// How many segments it says that there are.
    pub segments: u32,
}

/// A superblock of this format.
#[derive(Clone, Copy, Debug, PartialEq, Eq)]
pub struct Super {
    /// How many segments the image has, 6 to 8,191.
    pub segments: u32,
}

impl AnySuper {
    /// The superblock that the block spells, of whatever format.
    pub fn read(block: &Block) -> Option<AnySuper>
        ensures some { IfSome result (λ found.
            SpellsAnySuper block.now found.format found.segments) }
        ensures none { IfNone result ((format segments : ℕ)
            → SpellsAnySuper block.now format segments → ⊥) }
    {
        let bytes = block.bytes();
        if !is_shape(bytes) {
            return None;
        }
        Some(AnySuper {
            format: u32_at(bytes, 8),
            segments: u32_at(bytes, 12),
        })
    }
}

impl Super {
    /// The superblock of this format that the block spells.
    pub fn read(block: &Block) -> Option<Super>
        ensures some { IfSome result (λ found. SpellsSuper block.now found.segments) }
        ensures none { IfNone result ((segments : ℕ) → SpellsSuper block.now segments → ⊥) }
    {
        let Some(found) = AnySuper::read(block) else {
            return None;
        };
        if found.format != FORMAT || !is_segment_count(found.segments) {
            return None;
        }
        Some(Super {
            segments: found.segments,
        })
    }

    /// The block that spells the superblock.
    pub fn spell(&self, alloc: Global) -> Result<Block, NoMemory>
        requires { IsSegmentCount self.now.segments }
        ensures { IfOk result (λ block. SpellsSuper block self.now.segments) }
    {
        let mut front = Vec::with_capacity(alloc, FRONT_BYTES)?;
        front.extend_from_slice(MAGIC)?;
        push_u32(&mut front, FORMAT)?;
        push_u32(&mut front, self.segments)?;
        front.extend_from_slice(&[0; 48])?;
        seal(front)
    }
}

/// Whether an image may have so many segments.
pub fn is_segment_count(segments: u32) -> bool
    ensures { IsTrue result ↔ IsSegmentCount segments }
{
    (MIN_SEGMENTS..=MAX_SEGMENTS).contains(&segments)
}

// Whether the bytes of a block are a superblock's, whatever its two numbers are.
fn is_shape(bytes: &[u8]) -> bool
    requires { length bytes.now ≡ 4096 }
    ensures { IsTrue result ↔ IsSuperShape bytes.now }
{
    &bytes[..8] == MAGIC.as_slice()
        && is_zero(&bytes[16..FRONT_BYTES])
        && is_sealed(bytes, FRONT_BYTES)
}
