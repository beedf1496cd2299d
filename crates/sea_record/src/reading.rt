//! Records read from bytes.
ghost use Rattle.std.specs.Prelude.{◌≡◌, ◌+◌, ◌≤◌, ◌↔◌, length, List, ℕ, ◌++◌, ◌*◌, IfOk, IfSome};
ghost use Rattle.std.specs.Prelude.{IsTrue, MatchOption};
ghost use Rattle.sea_record.specs.Parts.{BeginsWithHeader, IsSealed, IsSpelled};
ghost use Rattle.sea_record.specs.declared.record.Record.{Record};
ghost use Rattle.sea_record.specs.Record.{BeginsWith, BeginsWithNone};

use crate::header::{DIGEST_AT, HEADER_BYTES, Header, read_header};
use crate::lists::read_metadata;
use crate::payload::{read_blocks, read_placed};
use crate::rules::is_record;
use crate::{Body, Record};
use sea_base::{BLOCK_BYTES, NoMemory, is_zero, sealed_digest};
use std::alloc::Global;

/// How many blocks a record takes at most.
const RECORD_BLOCKS: usize = 1024;

/// The record that a prefix of the bytes spells, or none where no prefix spells one. What stands
/// behind the record doesn't matter. Its blocks are copies, so that a block that is kept doesn't
/// keep the others.
pub fn decode(alloc: Global, bytes: &[u8]) -> Result<Option<Record>, NoMemory>
    ensures exact { IfOk result (λ found.
        MatchOption found (BeginsWithNone bytes.now) (BeginsWith bytes.now)) }
    ensures only { IfOk result (λ found.
        IfSome found (λ r. (s : Record) → BeginsWith bytes.now s → s ≡ r)) }
{
    let Some(record) = read_record(alloc, bytes)? else {
        return Ok(None);
    };
    let keeps = is_record(alloc, &record)?;
    if !keeps {
        return Ok(None);
    }
    Ok(Some(record))
}

// The record that a prefix of the bytes spells, whose fields may break the rules.
fn read_record(alloc: Global, bytes: &[u8]) -> Result<Option<Record>, NoMemory>
    ensures { IfOk result (λ found.
        MatchOption found (BeginsWithNone bytes.now) (IsSpelled bytes.now)) }
{
    let Some(header) = read_header(bytes) else {
        return Ok(None);
    };
    if !is_sealed(bytes, &header) {
        return Ok(None);
    }
    let payload = header.payload as usize;
    let payload_end = BLOCK_BYTES * (1 + payload);
    let end = payload_end + header.bytes as usize;
    let Some(metadata) = read_metadata(alloc, header.kind, &bytes[payload_end..end])? else {
        return Ok(None);
    };
    let marks = metadata.marks.items();
    if marks.len() > payload {
        return Ok(None);
    }
    let placed_end = BLOCK_BYTES * (1 + marks.len());
    let placed = read_placed(alloc, marks, &bytes[BLOCK_BYTES..placed_end])?;
    let nodes = read_blocks(
        alloc,
        payload - marks.len(),
        &bytes[placed_end..payload_end],
    )?;
    Ok(Some(Record {
        mount: header.mount,
        seq: header.seq,
        place: header.place,
        commit: header.commit,
        tail: header.tail,
        root: header.root,
        prev: header.prev,
        body: Body {
            kind: header.kind,
            placed,
            nodes,
            dropped: metadata.dropped,
            changes: metadata.changes,
            plain: metadata.plain,
        },
    }))
}

// Whether the bytes that begin with the header are a record's, but for its payload and metadata.
fn is_sealed(bytes: &[u8], header: &Header) -> bool
    requires { 176 ≤ length bytes.now }
    ensures { IsTrue result ↔ IsSealed bytes.now header.now }
{
    let payload = header.payload as usize;
    let blocks = header.blocks as usize;
    let metadata_end = BLOCK_BYTES * (1 + payload) + header.bytes as usize;
    let end = BLOCK_BYTES * (1 + payload + blocks);
    1 + payload + blocks <= RECORD_BLOCKS
        && blocks == (header.bytes as usize).div_ceil(BLOCK_BYTES)
        && end <= bytes.len()
        && is_zero(&bytes[HEADER_BYTES..BLOCK_BYTES])
        && is_zero(&bytes[metadata_end..end])
        && sealed_digest(&bytes[..end], DIGEST_AT) == header.digest
}
