//! The first 176 bytes of a record.
ghost use Rattle.std.specs.Prelude.{◌≡◌, ◌+◌, ◌≤◌, ◌++◌, length, OnOk, MatchOption};
ghost use Rattle.sea_record.specs.Header.{header_bytes};
ghost use Rattle.sea_record.specs.declared.record.Record.{Record};
ghost use Rattle.sea_record.specs.Record.{BeginsWith, own_digest};
ghost use Rattle.sea_record.specs.Parts.{BeginsWithHeader, BeginsWithNoHeader};

use crate::Kind;
use sea_base::{
    Commit, Digest, NoMemory, Paddr, Root, Tail, digest_at, push_root_fields, push_u32, push_u64,
    root_fields_at, u32_at, u64_at,
};

/// How many bytes the fields of a header take.
pub const HEADER_BYTES: usize = 176;

/// Where a record's own digest stands.
pub const DIGEST_AT: usize = 144;

const MAGIC: &[u8; 8] = b"SEARECRD";

const FORMAT: u32 = 1;

/// What the first bytes of a record say.
#[derive(Debug, Drop)]
pub struct Header {
    pub kind: Kind,
    pub mount: u64,
    pub seq: u64,
    pub place: Paddr,
    /// How many blocks of payload there are.
    pub payload: u32,
    /// How many blocks of metadata.
    pub blocks: u32,
    /// How many bytes of metadata.
    pub bytes: u32,
    pub commit: Commit,
    pub tail: Tail,
    pub root: Root,
    pub prev: Digest,
    /// The record's own digest.
    pub digest: Digest,
}

/// Appends the bytes of a header.
pub fn push_header(bytes: &mut Vec<u8>, header: &Header) -> Result<(), NoMemory>
    ensures { OnOk result (bytes.new.items ≡ bytes.old.items ++ header_bytes header.now) }
{
    bytes.extend_from_slice(MAGIC)?;
    push_u32(bytes, FORMAT)?;
    push_u32(bytes, header.kind.number())?;
    push_u64(bytes, header.mount)?;
    push_u64(bytes, header.seq)?;
    push_u32(bytes, header.place.0)?;
    push_u32(bytes, header.payload)?;
    push_u32(bytes, header.blocks)?;
    push_u32(bytes, header.bytes)?;
    push_u64(bytes, header.commit.0)?;
    push_root_fields(bytes, &header.tail, &header.root)?;
    bytes.extend_from_slice(&header.prev.0)?;
    bytes.extend_from_slice(&header.digest.0)?;
    Ok(())
}

/// The header that the bytes begin with.
pub fn read_header(bytes: &[u8]) -> Option<Header>
    ensures { MatchOption result (BeginsWithNoHeader bytes.now) (BeginsWithHeader bytes.now) }
{
    if bytes.len() < HEADER_BYTES || &bytes[..8] != MAGIC.as_slice() || u32_at(bytes, 8) != FORMAT {
        return None;
    }
    let Some(kind) = Kind::numbered(u32_at(bytes, 12)) else {
        return None;
    };
    let Some((tail, root)) = root_fields_at(bytes, 56) else {
        return None;
    };
    Some(Header {
        kind,
        mount: u64_at(bytes, 16),
        seq: u64_at(bytes, 24),
        place: Paddr(u32_at(bytes, 32)),
        payload: u32_at(bytes, 36),
        blocks: u32_at(bytes, 40),
        bytes: u32_at(bytes, 44),
        commit: Commit(u64_at(bytes, 48)),
        tail,
        root,
        prev: digest_at(bytes, 112),
        digest: digest_at(bytes, DIGEST_AT),
    })
}

/// The digest that stands in a record's bytes, its own.
pub fn digest_in(bytes: &[u8]) -> Digest
    requires { 176 ≤ length bytes.now }
    ensures { (r : Record) → BeginsWith bytes.now r → result.0 ≡ own_digest r }
{
    digest_at(bytes, DIGEST_AT)
}
