//! Records read from bytes.
ghost use Rattle.std.specs.Prelude.{◌≡◌, ◌+◌, ◌^◌, ◌<◌, ◌≤◌, ◌↔◌, length, IfOk, IsTrue, MatchOption};
ghost use Rattle.std.specs.List.{AllByRecursion};
ghost use Rattle.sea_top.specs.Record.{IsPiece, piece_bytes, body_bytes, BeginsWith, BeginsWithNone};
ghost use Rattle.sea_top.specs.RecordParts.{BeginsWithPiece, BeginsWithNoPiece, ArePieces, AreNoPieces, IsSealed};

use crate::record::header::{DIGEST_AT, HEADER_BYTES, Header, read_header};
use crate::{Piece, Pieces, PlainRecord};
use sea_base::{BLOCK_BYTES, Data, Name, NameFault, NoMemory, is_zero, sealed_digest, u32_at};
use sea_plain::OBJECT_BYTES;
use std::alloc::Global;

/// How many blocks a record takes at most.
pub const RECORD_BLOCKS: u32 = 1024;

/// The record that a prefix of the bytes spells, or none where no prefix spells one.
pub fn read_record(alloc: Global, bytes: &[u8]) -> Result<Option<PlainRecord>, NoMemory>
    ensures { IfOk result (λ found. MatchOption found (BeginsWithNone bytes.now) (BeginsWith bytes.now)) }
{
    let Some(header) = read_header(bytes) else {
        return Ok(None);
    };
    if !is_sealed(bytes, &header) {
        return Ok(None);
    }
    let end = HEADER_BYTES + header.body_len as usize;
    let Some(pieces) = read_pieces(alloc, &bytes[HEADER_BYTES..end])? else {
        return Ok(None);
    };
    Ok(Some(PlainRecord {
        commit: header.commit,
        previous: header.previous,
        pieces,
    }))
}

// Whether the bytes that begin with the header are a record's, but for its pieces.
fn is_sealed(bytes: &[u8], header: &Header) -> bool
    requires { 96 ≤ length bytes.now }
    ensures { IsTrue result ↔ IsSealed bytes.now header.now }
{
    let body_end = HEADER_BYTES + header.body_len as usize;
    let end = BLOCK_BYTES * header.blocks as usize;
    header.commit.0 >= 1
        && header.body_len >= 1
        && header.blocks <= RECORD_BLOCKS
        && body_end.div_ceil(BLOCK_BYTES) == header.blocks as usize
        && end <= bytes.len()
        && is_zero(&bytes[body_end..end])
        && sealed_digest(&bytes[..end], DIGEST_AT) == header.digest
}

// The pieces that the bytes spell, all of the bytes.
fn read_pieces(alloc: Global, bytes: &[u8]) -> Result<Option<Pieces>, NoMemory>
    ensures { IfOk result (λ found. MatchOption found (AreNoPieces bytes.now) (ArePieces bytes.now)) }
{
    let mut pieces = Pieces::new(alloc);
    let mut rest = bytes;
    while !rest.is_empty() {
        let Some((piece, behind)) = read_piece(alloc, rest)? else {
            return Ok(None);
        };
        pieces.push(piece)?;
        rest = behind;
    }
    Ok(Some(pieces))
}

// The piece that a prefix of the bytes spells, and the bytes behind it.
fn read_piece(alloc: Global, bytes: &[u8]) -> Result<Option<(Piece, &[u8])>, NoMemory>
    ensures { IfOk result (λ found. MatchOption found (BeginsWithNoPiece bytes.now) (λ x. BeginsWithPiece bytes.now x.0 x.1.now)) }
{
    let name_len = match bytes {
        [] => return Ok(None),
        [first, ..] => *first as usize,
    };
    let name_end = 1 + name_len;
    if bytes.len() < name_end + 8 {
        return Ok(None);
    }
    let offset = u32_at(bytes, name_end);
    let count = u32_at(bytes, name_end + 4) as usize;
    let end = name_end + 8 + count;
    if bytes.len() < end || !is_range(offset, count) {
        return Ok(None);
    }
    let name = match Name::new(alloc, &bytes[1..name_end]) {
        Ok(name) => name,
        Err(NameFault::BadName) => return Ok(None),
        Err(NameFault::NoMemory) => return Err(NoMemory),
    };
    let data = Data::new(alloc, &bytes[name_end + 8..end])?;
    let piece = Piece {
        name,
        offset,
        bytes: data,
    };
    Ok(Some((piece, &bytes[end..])))
}

// Whether so many bytes from an offset on lie within an object.
fn is_range(offset: u32, len: usize) -> bool
    requires { len < 2 ^ 32 }
    ensures { IsTrue result ↔ (offset + len ≤ 16777216) }
{
    offset as usize + len <= OBJECT_BYTES as usize
}
