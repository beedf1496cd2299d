//! The blocks between a record's header and its metadata.
ghost use Rattle.std.specs.Prelude.{◌≡◌, ◌*◌, length, map, All, IfOk};
ghost use Rattle.std.specs.List.{flat_map};
ghost use Rattle.sea_record.specs.Parts.{mark_of};
ghost use Rattle.sea_record.specs.Record.{IsBlock};

use crate::Placed;
use crate::entry::Mark;
use sea_base::{BLOCK_BYTES, Block, NoMemory, Sequence};
use std::alloc::Global;

/// The placed extents with these marks, whose blocks the bytes are.
pub fn read_placed(
    alloc: Global,
    marks: &[Mark],
    bytes: &[u8],
) -> Result<Sequence<Placed>, NoMemory>
    requires { length bytes.now ≡ 4096 * length marks.now }
    ensures marks { IfOk result (λ placed. map mark_of placed ≡ marks.now) }
    ensures bytes { IfOk result (λ placed. flat_map (λ p. p.block) placed ≡ bytes.now) }
    ensures blocks { IfOk result (λ placed. All (λ p. length p.block ≡ 4096) placed) }
{
    let mut placed = Sequence::new(alloc);
    let mut rest = bytes;
    for mark in marks {
        let (block, behind) = rest.split_at(BLOCK_BYTES);
        placed.push(Placed {
            at: mark.at,
            version: mark.version,
            sum: mark.sum,
            block: Block::new(alloc, block)?,
        })?;
        rest = behind;
    }
    Ok(placed)
}

/// The blocks that the bytes are, so many.
pub fn read_blocks(alloc: Global, count: usize, bytes: &[u8]) -> Result<Sequence<Block>, NoMemory>
    requires { length bytes.now ≡ 4096 * count }
    ensures count { IfOk result (λ blocks. length blocks ≡ count) }
    ensures bytes { IfOk result (λ blocks. flat_map (λ b. b) blocks ≡ bytes.now) }
    ensures blocks { IfOk result (λ blocks. All IsBlock blocks) }
{
    let mut blocks = Sequence::new(alloc);
    let mut rest = bytes;
    for _ in 0..count {
        let (block, behind) = rest.split_at(BLOCK_BYTES);
        blocks.push(Block::new(alloc, block)?)?;
        rest = behind;
    }
    Ok(blocks)
}
