//! The header of a segment, which its first block spells.
ghost use Rattle.std.specs.Prelude.{◌≡◌, ◌↔◌, length, IfOk, IfSome, IfNone, IsTrue};
ghost use Rattle.sea_segment.specs.declared.header.Header.{Header as HeaderValue};
ghost use Rattle.sea_segment.specs.Header.{IsHeader, IsHeaderShape, HasRanges, SpellsHeader};
ghost use Rattle.sea_segment.specs.Header.{header_digest};

use crate::seal::{is_sealed, seal};
use crate::superblock::FORMAT;
use sea_base::{
    Block, Commit, Digest, NoMemory, Root, Tail, digest_at, is_zero, push_root_fields, push_u32,
    push_u64, root_fields_at, u32_at, u64_at,
};
use std::alloc::Global;

const MAGIC: &[u8; 8] = b"SEASEGMT";

const FRONT_BYTES: usize = 144;

const ROOTS_AT: usize = 56;

const PREV_AT: usize = 112;

const END_OF_NUMBERS: u64 = 1 << 63;

/// The header of a segment: what held as the segment was begun.
#[derive(Clone, Copy, Debug, PartialEq, Eq)]
pub struct Header {
    /// The number of the segment, from 0 on.
    pub segment: u32,
    /// The mount number of the last record before it.
    pub mount: u64,
    /// The sequence number of the segment, 1 or more.
    pub seq: u64,
    /// The commit number of the last record before it.
    pub commit: Commit,
    /// The first record that was still needed.
    pub tail: Tail,
    /// The trees, and the next address.
    pub root: Root,
    /// The digest of the record before it, or of the header before it where that segment has none.
    pub prev: Digest,
}

impl Header {
    /// The header that the block spells.
    pub fn read(block: &Block) -> Option<Header>
        ensures some { IfSome result (SpellsHeader block.now) }
        ensures none { IfNone result ((header : HeaderValue) → SpellsHeader block.now header → ⊥) }
    {
        let bytes = block.bytes();
        if !is_shape(bytes) {
            return None;
        }
        let Some((tail, root)) = root_fields_at(bytes, ROOTS_AT) else {
            return None;
        };
        let header = Header {
            segment: u32_at(bytes, 12),
            mount: u64_at(bytes, 16),
            seq: u64_at(bytes, 24),
            commit: Commit(u64_at(bytes, 48)),
            tail,
            root,
            prev: digest_at(bytes, PREV_AT),
        };
        if !header.has_ranges() {
            return None;
        }
        Some(header)
    }

    /// The block that spells the header.
    pub fn spell(&self, alloc: Global) -> Result<Block, NoMemory>
        requires { IsHeader self.now }
        ensures { IfOk result (λ block. SpellsHeader block self.now) }
    {
        let mut front = Vec::with_capacity(alloc, FRONT_BYTES)?;
        front.extend_from_slice(MAGIC)?;
        push_u32(&mut front, FORMAT)?;
        push_u32(&mut front, self.segment)?;
        push_u64(&mut front, self.mount)?;
        push_u64(&mut front, self.seq)?;
        front.extend_from_slice(&[0; 16])?;
        push_u64(&mut front, self.commit.0)?;
        push_root_fields(&mut front, &self.tail, &self.root)?;
        front.extend_from_slice(&self.prev.0)?;
        seal(front)
    }

    /// The digest that the block of a header has of itself.
    pub fn digest_in(block: &Block) -> Digest
        ensures { (header : HeaderValue) → SpellsHeader block.now header
            → result.0 ≡ header_digest header }
    {
        digest_at(block.bytes(), FRONT_BYTES)
    }

    // Whether its numbers are in their ranges.
    fn has_ranges(&self) -> bool
        ensures { IsTrue result ↔ HasRanges self.now }
    {
        self.mount < END_OF_NUMBERS
            && (1..END_OF_NUMBERS).contains(&self.seq)
            && self.commit.0 < END_OF_NUMBERS
    }
}

// Whether the bytes of a block are a header's, whatever its fields are.
fn is_shape(bytes: &[u8]) -> bool
    requires { length bytes.now ≡ 4096 }
    ensures { IsTrue result ↔ IsHeaderShape bytes.now }
{
    &bytes[..8] == MAGIC.as_slice()
        && u32_at(bytes, 8) == FORMAT
        && is_zero(&bytes[32..48])
        && is_sealed(bytes, FRONT_BYTES)
}
