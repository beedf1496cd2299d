//! Records written as bytes.
ghost use Rattle.std.specs.Prelude.{◌≡◌, ◌+◌, ◌-◌, ◌*◌, ◌^◌, ◌<◌, ◌≤◌, ◌++◌, length, replicate};
ghost use Rattle.std.specs.Prelude.{All, OnOk, OnErr, IfOk};
ghost use Rattle.sea_record.specs.Entries.{counted, mark_bytes};
ghost use Rattle.sea_record.specs.Header.{header_bytes};
ghost use Rattle.sea_record.specs.Parts.{mark_of};
ghost use Rattle.sea_record.specs.Record.{IsChange, IsRecord, header_of, blocks, metadata};
ghost use Rattle.sea_record.specs.Record.{metadata_blocks, payload, payload_blocks, record_bytes};
ghost use Rattle.sea_record.specs.Record.{zeros};

use crate::entry::{ADDRESS_BYTES, CHANGE_BYTES, Entry, MARK_BYTES, Mark};
use crate::header::{DIGEST_AT, Header, push_header};
use crate::list::push_list;
use crate::{Body, Placed, Record};
use sea_base::{BLOCK_BYTES, Data, Digest, NoMemory, digest_of, push_u32, put_bytes};
use std::alloc::Global;

/// How many blocks a record with this body takes.
pub fn size(body: &Body) -> u32
    requires { blocks body.now < 2 ^ 32 }
    ensures { result ≡ blocks body.now }
{
    (1 + payload_len(body) + metadata_len(body).div_ceil(BLOCK_BYTES)) as u32
}

/// The one spelling of a record, in whole blocks.
pub fn encode(alloc: Global, entry: &Record) -> Result<Data, NoMemory>
    requires { IsRecord entry.now }
    ensures { IfOk result (λ bytes. bytes ≡ record_bytes entry.now) }
{
    let mut bytes = vec![in alloc; 0; BLOCK_BYTES * size(&entry.body) as usize]?;
    encode_into(alloc, entry, &mut bytes)?;
    Data::from_vec(bytes)
}

/// Writes the one spelling of a record over as many bytes. Without memory these stay as they were.
pub fn encode_into(alloc: Global, entry: &Record, into: &mut [u8]) -> Result<(), NoMemory>
    requires is_record { IsRecord entry.now }
    requires whole { length into.old ≡ 4096 * blocks entry.now.body }
    ensures ok { OnOk result (into.new ≡ record_bytes entry.now) }
    ensures err { OnErr result (into.new ≡ into.old) }
{
    let front = front_block(alloc, entry)?;
    let back = back_blocks(alloc, &entry.body)?;
    put_parts(into, &front, &entry.body, &back);
    let digest = digest_of(into);
    put_bytes(into, DIGEST_AT, &digest.0);
    Ok(())
}

// The header block of a record, with zeros in the place of its digest.
fn front_block(alloc: Global, entry: &Record) -> Result<Vec<u8>, NoMemory>
    requires { IsRecord entry.now }
    ensures { IfOk result (λ bytes. bytes.items
        ≡ header_bytes (header_of entry.now (replicate 32 0)) ++ zeros 3920) }
{
    let mut bytes = Vec::with_capacity(alloc, BLOCK_BYTES)?;
    push_header(&mut bytes, &unsealed_header(entry))?;
    pad(&mut bytes, BLOCK_BYTES)?;
    Ok(bytes)
}

// The metadata in whole blocks.
fn back_blocks(alloc: Global, body: &Body) -> Result<Vec<u8>, NoMemory>
    requires lists { (length body.now.placed < 2 ^ 32) × (length body.now.dropped < 2 ^ 32)
        × (length body.now.changes < 2 ^ 32) }
    requires changes { All IsChange body.now.changes }
    requires few { metadata_blocks body.now ≤ 1024 }
    ensures { IfOk result (λ bytes. bytes.items ≡ metadata body.now
        ++ zeros (4096 * metadata_blocks body.now - length (metadata body.now))) }
{
    let end = BLOCK_BYTES * metadata_len(body).div_ceil(BLOCK_BYTES);
    let mut bytes = Vec::with_capacity(alloc, end)?;
    push_metadata(&mut bytes, body)?;
    pad(&mut bytes, end)?;
    Ok(bytes)
}

// Writes the parts of a record one behind the other over as many bytes.
fn put_parts(into: &mut [u8], front: &[u8], body: &Body, back: &[u8])
    requires front { length front.now ≡ 4096 }
    requires whole { length into.old ≡ 4096 * (1 + payload_blocks body.now) + length back.now }
    ensures { into.new ≡ front.now ++ payload body.now ++ back.now }
{
    put_bytes(into, 0, front);
    let mut at = BLOCK_BYTES;
    for placed in body.placed.items() {
        put_bytes(into, at, placed.block.bytes());
        at += BLOCK_BYTES;
    }
    for node in body.nodes.items() {
        put_bytes(into, at, node.bytes());
        at += BLOCK_BYTES;
    }
    put_bytes(into, at, back);
}

// How many blocks of payload there are.
fn payload_len(body: &Body) -> usize
    requires { payload_blocks body.now < 2 ^ 32 }
    ensures { result ≡ payload_blocks body.now }
{
    body.placed.items().len() + body.nodes.items().len()
}

// How many bytes of metadata there are.
fn metadata_len(body: &Body) -> usize
    requires { length (metadata body.now) < 2 ^ 48 }
    ensures { result ≡ length (metadata body.now) }
{
    if body.lists_nothing() {
        return body.plain.len();
    }
    let mut len = 12 + MARK_BYTES * body.placed.items().len();
    len += ADDRESS_BYTES * body.dropped.items().len();
    for change in body.changes.items() {
        len += CHANGE_BYTES + change.delta.put.len();
    }
    len
}

// The record's header, with zeros in the place of its digest.
fn unsealed_header(entry: &Record) -> Header
    requires { blocks entry.now.body ≤ 1024 }
    ensures { result ≡ header_of entry.now (replicate 32 0) }
{
    let bytes = metadata_len(&entry.body);
    Header {
        kind: entry.body.kind,
        mount: entry.mount,
        seq: entry.seq,
        place: entry.place,
        payload: payload_len(&entry.body) as u32,
        blocks: bytes.div_ceil(BLOCK_BYTES) as u32,
        bytes: bytes as u32,
        commit: entry.commit,
        tail: entry.tail,
        root: entry.root,
        prev: entry.prev,
        digest: Digest([0; 32]),
    }
}

// Appends the metadata.
fn push_metadata(bytes: &mut Vec<u8>, body: &Body) -> Result<(), NoMemory>
    requires placed { length body.now.placed < 2 ^ 32 }
    requires dropped { length body.now.dropped < 2 ^ 32 }
    requires changes { (length body.now.changes < 2 ^ 32) × All IsChange body.now.changes }
    ensures { OnOk result (bytes.new.items ≡ bytes.old.items ++ metadata body.now) }
{
    if body.lists_nothing() {
        bytes.extend_from_slice(body.plain.bytes())?;
        return Ok(());
    }
    push_marks(bytes, body.placed.items())?;
    push_list(bytes, body.dropped.items())?;
    push_list(bytes, body.changes.items())?;
    Ok(())
}

// Appends what the metadata says of the placed extents.
fn push_marks(bytes: &mut Vec<u8>, placed: &[Placed]) -> Result<(), NoMemory>
    requires { length placed.now < 2 ^ 32 }
    ensures { OnOk result (bytes.new.items ≡
        bytes.old.items ++ counted (λ p. mark_bytes p.at.0 p.version.0 p.sum.0) placed.now) }
{
    push_u32(bytes, placed.len() as u32)?;
    for p in placed {
        mark(p).push(bytes)?;
    }
    Ok(())
}

// What the metadata says of a placed extent.
fn mark(placed: &Placed) -> Mark
    ensures { result ≡ mark_of placed.now }
{
    Mark {
        at: placed.at,
        version: placed.version,
        sum: placed.sum,
    }
}

// Appends zeros up to an end.
fn pad(bytes: &mut Vec<u8>, end: usize) -> Result<(), NoMemory>
    requires { length bytes.old.items ≤ end }
    ensures { OnOk result (bytes.new.items ≡
        bytes.old.items ++ zeros (end - length bytes.old.items)) }
{
    bytes.resize(end, 0)?;
    Ok(())
}
