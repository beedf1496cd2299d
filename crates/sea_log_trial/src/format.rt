//! Records put together by their format, apart from the crate that reads and spells them.

use sea_base::{Block, Digest, NoMemory, digest_of, push_u16, push_u32, push_u64, sum_of};
use std::alloc::Global;

/// A placed extent: its address, its version, and the byte that fills its block.
pub type Placing = (u64, u64, u8);

/// A splice: its address, how many bytes stay, how many go, and those that come.
pub type Splice<'a> = (u64, u16, u16, &'a [u8]);

/// The number of the commit of each sample.
pub const COMMIT: u64 = 12;

/// The bytes of a record of this kind, its digest in place.
pub fn spelled(
    alloc: Global,
    kind: u32,
    payload: &[u8],
    metadata: &[u8],
) -> Result<Vec<u8>, NoMemory> {
    let blocks = metadata.len().div_ceil(4096);
    let mut head = Vec::new(alloc);
    head.extend_from_slice(b"SEARECRD")?;
    push_u32(&mut head, 1)?;
    push_u32(&mut head, kind)?;
    push_u64(&mut head, 7)?;
    push_u64(&mut head, 3)?;
    push_u32(&mut head, 4200)?;
    push_count(&mut head, payload.len() / 4096)?;
    push_count(&mut head, blocks)?;
    push_count(&mut head, metadata.len())?;
    push_u64(&mut head, COMMIT)?;
    push_roots(&mut head)?;
    for byte in 0..32u8 {
        head.push(byte)?;
    }
    let mut rest = Vec::new(alloc);
    rest.resize(3920, 0)?;
    rest.extend_from_slice(payload)?;
    rest.extend_from_slice(metadata)?;
    push_zeros(&mut rest, metadata.len() % 4096)?;
    sealed(alloc, &head, &rest)
}

// The bytes before a digest, the digest of all with zeros in its place, and the bytes behind it.
fn sealed(alloc: Global, head: &[u8], rest: &[u8]) -> Result<Vec<u8>, NoMemory> {
    let Digest(digest) = digest_of(&around(alloc, head, &[0; 32], rest)?);
    around(alloc, head, &digest, rest)
}

fn around(alloc: Global, head: &[u8], digest: &[u8], rest: &[u8]) -> Result<Vec<u8>, NoMemory> {
    let mut bytes = Vec::new(alloc);
    bytes.extend_from_slice(head)?;
    bytes.extend_from_slice(digest)?;
    bytes.extend_from_slice(rest)?;
    Ok(bytes)
}

fn push_count(bytes: &mut Vec<u8>, count: usize) -> Result<(), NoMemory> {
    push_u32(bytes, u32::try_from(count).unwrap_or(0))
}

// The tail, the root of addresses, the root of owners, and the next address.
fn push_roots(bytes: &mut Vec<u8>) -> Result<(), NoMemory> {
    push_u64(bytes, 3)?;
    push_u32(bytes, 4100)?;
    push_u32(bytes, 0)?;
    push_u32(bytes, 77)?;
    push_u32(bytes, 2)?;
    push_u64(bytes, 0x1122_3344_5566_7788)?;
    push_u32(bytes, 78)?;
    push_u32(bytes, 1)?;
    push_u64(bytes, 9)?;
    push_u64(bytes, 5000)
}

// Zeros up to the end of a block of which so many bytes are filled.
fn push_zeros(bytes: &mut Vec<u8>, filled: usize) -> Result<(), NoMemory> {
    if filled > 0 {
        for _ in filled..4096 {
            bytes.push(0)?;
        }
    }
    Ok(())
}

/// Blocks, each filled with its number.
pub fn blocks(alloc: Global, count: u32) -> Result<Vec<u8>, NoMemory> {
    let mut bytes = Vec::new(alloc);
    for i in 0..count {
        bytes.extend_from_slice(&[(i % 256) as u8; 4096])?;
    }
    Ok(bytes)
}

/// The metadata of lists.
pub fn metadata(
    alloc: Global,
    placed: &[Placing],
    dropped: &[u64],
    changes: &[Splice<'_>],
) -> Result<Vec<u8>, NoMemory> {
    let mut bytes = Vec::new(alloc);
    push_count(&mut bytes, placed.len())?;
    for (at, version, filler) in placed {
        let block = Block::new(alloc, &[*filler; 4096])?;
        push_u64(&mut bytes, *at)?;
        push_u64(&mut bytes, *version)?;
        push_u64(&mut bytes, sum_of(&block).0)?;
    }
    push_count(&mut bytes, dropped.len())?;
    for at in dropped {
        push_u64(&mut bytes, *at)?;
    }
    push_count(&mut bytes, changes.len())?;
    for (at, cut, gone, put) in changes {
        push_u64(&mut bytes, *at)?;
        push_u16(&mut bytes, *cut)?;
        push_u16(&mut bytes, *gone)?;
        push_u16(&mut bytes, u16::try_from(put.len()).unwrap_or(0))?;
        bytes.extend_from_slice(put)?;
    }
    Ok(bytes)
}
