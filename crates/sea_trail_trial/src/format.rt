//! Links of a trail put together by their format, apart from the crates that spell and read them.

use sea_base::{BLOCK_BYTES, Digest, NoMemory, digest_of, push_u32, push_u64, u64_at};
use std::alloc::Global;

/// What a header or a record says of the chain, and of the tail.
#[derive(Clone, Copy, Debug)]
pub struct Says {
    pub mount: u64,
    pub seq: u64,
    pub commit: u64,
    pub tail_seq: u64,
    pub tail: u32,
    pub prev: Digest,
}

/// What a record holds.
#[derive(Clone, Copy, Debug)]
pub enum Holds {
    /// Nothing: the store was opened.
    Mount,
    /// So many plain bytes, 1 or more.
    Plain(u16),
    /// So many placed blocks, 1 or more, of a client.
    Placed(u8),
}

impl Holds {
    // The number of the record's kind.
    fn kind(self) -> u32 {
        match self {
            Holds::Mount => 1,
            Holds::Placed(_) => 2,
            Holds::Plain(_) => 9,
        }
    }
}

// The next address that every link names.
const NEXT: u64 = 1000;

/// The blocks of a link, with its digest in place.
#[derive(Debug, Drop)]
pub struct Spelled {
    pub bytes: Vec<u8>,
    pub digest: Digest,
}

/// A superblock of this format, for so many segments.
pub fn superblock(alloc: Global, format: u32, segments: u32) -> Result<Spelled, NoMemory> {
    let mut head = Vec::new(alloc);
    head.extend_from_slice(b"SEASUPER")?;
    push_u32(&mut head, format)?;
    push_u32(&mut head, segments)?;
    head.extend_from_slice(&[0; 48])?;
    sealed(alloc, &head, &[0; 4000])
}

/// The header of a segment.
pub fn header(alloc: Global, segment: u32, says: &Says) -> Result<Spelled, NoMemory> {
    let mut head = Vec::new(alloc);
    head.extend_from_slice(b"SEASEGMT")?;
    push_u32(&mut head, 1)?;
    push_u32(&mut head, segment)?;
    push_u64(&mut head, says.mount)?;
    push_u64(&mut head, says.seq)?;
    head.extend_from_slice(&[0; 16])?;
    push_u64(&mut head, says.commit)?;
    push_says(&mut head, says)?;
    sealed(alloc, &head, &[0; 3920])
}

/// A record at a place.
pub fn entry(alloc: Global, place: u32, says: &Says, holds: Holds) -> Result<Spelled, NoMemory> {
    let payload = payload(alloc, holds)?;
    let metadata = metadata(alloc, says, holds, &payload)?;
    let blocks = metadata.len().div_ceil(BLOCK_BYTES);
    let mut head = Vec::new(alloc);
    head.extend_from_slice(b"SEARECRD")?;
    push_u32(&mut head, 1)?;
    push_u32(&mut head, holds.kind())?;
    push_u64(&mut head, says.mount)?;
    push_u64(&mut head, says.seq)?;
    push_u32(&mut head, place)?;
    push_count(&mut head, payload.len() / BLOCK_BYTES)?;
    push_count(&mut head, blocks)?;
    push_count(&mut head, metadata.len())?;
    push_u64(&mut head, says.commit)?;
    push_says(&mut head, says)?;
    let mut rest = Vec::new(alloc);
    rest.resize(3920, 0)?;
    rest.extend_from_slice(&payload)?;
    rest.extend_from_slice(&metadata)?;
    push_zeros(&mut rest, metadata.len() % BLOCK_BYTES)?;
    sealed(alloc, &head, &rest)
}

// The placed blocks, each filled with its number.
fn payload(alloc: Global, holds: Holds) -> Result<Vec<u8>, NoMemory> {
    let mut bytes = Vec::new(alloc);
    if let Holds::Placed(count) = holds {
        for i in 0..count {
            bytes.extend_from_slice(&[i; BLOCK_BYTES])?;
        }
    }
    Ok(bytes)
}

// The plain bytes, or the address, version and sum of each placed block, and no other list.
fn metadata(alloc: Global, says: &Says, holds: Holds, payload: &[u8]) -> Result<Vec<u8>, NoMemory> {
    let mut bytes = Vec::new(alloc);
    match holds {
        Holds::Mount => {}
        Holds::Plain(len) => bytes.resize(len as usize, 7)?,
        Holds::Placed(count) => {
            push_u32(&mut bytes, count as u32)?;
            for (i, block) in payload.chunks_exact(BLOCK_BYTES).enumerate() {
                push_u64(&mut bytes, 1 + i as u64)?;
                push_u64(&mut bytes, says.commit)?;
                push_u64(&mut bytes, u64_at(&digest_of(block).0, 0))?;
            }
            bytes.extend_from_slice(&[0; 8])?;
        }
    }
    Ok(bytes)
}

fn push_count(bytes: &mut Vec<u8>, count: usize) -> Result<(), NoMemory> {
    push_u32(bytes, u32::try_from(count).unwrap_or(0))
}

// Zeros up to the end of a block of which so many bytes are filled.
fn push_zeros(bytes: &mut Vec<u8>, filled: usize) -> Result<(), NoMemory> {
    if filled > 0 {
        for _ in filled..BLOCK_BYTES {
            bytes.push(0)?;
        }
    }
    Ok(())
}

// The tail, both roots, which are those of empty trees, the next address, and the digest before.
fn push_says(bytes: &mut Vec<u8>, says: &Says) -> Result<(), NoMemory> {
    push_u64(bytes, says.tail_seq)?;
    push_u32(bytes, says.tail)?;
    bytes.extend_from_slice(&[0; 36])?;
    push_u64(bytes, NEXT)?;
    bytes.extend_from_slice(&says.prev.0)?;
    Ok(())
}

// The bytes before a digest, the digest of all with zeros in its place, and the bytes behind it.
fn sealed(alloc: Global, head: &[u8], rest: &[u8]) -> Result<Spelled, NoMemory> {
    let digest = digest_of(&around(alloc, head, &[0; 32], rest)?);
    let bytes = around(alloc, head, &digest.0, rest)?;
    Ok(Spelled { bytes, digest })
}

fn around(alloc: Global, head: &[u8], digest: &[u8], rest: &[u8]) -> Result<Vec<u8>, NoMemory> {
    let mut bytes = Vec::new(alloc);
    bytes.extend_from_slice(head)?;
    bytes.extend_from_slice(digest)?;
    bytes.extend_from_slice(rest)?;
    Ok(bytes)
}
