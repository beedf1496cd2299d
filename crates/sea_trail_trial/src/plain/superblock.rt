//! How many segments an image has.
ghost use Rattle.std.specs.Prelude.{◌≡◌, ◌+◌, ◌*◌, ◌%◌, ◌^◌, ◌<◌, ◌≤◌, length, IfOk, IfErr, MatchResult};
ghost use Rattle.sea_segment.specs.Superblock.{IsSegmentCount};
ghost use Rattle.sea_trail.specs.Parts.{HasFirst, IsFirstWhy};
ghost use Rattle.sea_trail.specs.Refusals.{Refuses};
ghost use Rattle.sea_trail.specs.Trail.{HasSegments, block_of, blocks_needed as needed};

use sea_base::{BLOCK_BYTES, Block, NoMemory};
use sea_segment::{AnySuper, FORMAT, is_segment_count};
use sea_trail::{ImageWhy, ScanFault, blocks_needed};
use std::alloc::Global;

/// A block of an image.
pub fn block_at(alloc: Global, image: &[u8], at: u32) -> Result<Block, NoMemory>
    requires { 4096 * (at + 1) ≤ length image.now }
    ensures { IfOk result (λ block. block ≡ block_of image.now at) }
{
    let from = BLOCK_BYTES * at as usize;
    Block::new(alloc, &image[from..from + BLOCK_BYTES])
}

/// The number of segments, by the first block.
pub fn segments_of(alloc: Global, image: &[u8]) -> Result<u32, ScanFault>
    requires whole { length image.now % 4096 ≡ 0 }
    requires few { length image.now < 2 ^ 44 }
    ensures told { MatchResult result (HasSegments image.now) (Refuses image.now) }
    ensures room { IfOk result (λ segments. IsSegmentCount segments
        × (4096 * needed segments ≤ length image.now)) }
{
    let have = (image.len() / BLOCK_BYTES) as u32;
    if have == 0 {
        return Err(ScanFault::Refused(ImageWhy::NoSuper));
    }
    let block = block_at(alloc, image, 0)?;
    let segments = segments_in(&block, have)?;
    Ok(segments)
}

// The number of segments, by the superblock of an image of so many blocks.
fn segments_in(block: &Block, have: u32) -> Result<u32, ImageWhy>
    ensures segments { IfOk result (λ segments. HasFirst block.now 1 segments
        × (needed segments ≤ have)) }
    ensures refused { IfErr result (IsFirstWhy block.now have) }
{
    let Some(found) = AnySuper::read(block) else {
        return Err(ImageWhy::NoSuper);
    };
    if found.format != FORMAT {
        return Err(ImageWhy::OldFormat {
            found: found.format,
        });
    }
    if !is_segment_count(found.segments) {
        return Err(ImageWhy::NoSuper);
    }
    let need = blocks_needed(found.segments);
    if have < need {
        return Err(ImageWhy::Short { have, need });
    }
    Ok(found.segments)
}
