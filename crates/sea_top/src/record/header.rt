//! The first 96 bytes of a record.
ghost use Rattle.std.specs.Prelude.{◌≡◌, ◌+◌, ◌-◌, ◌≤◌, ◌++◌, length, replicate, slice_range, MatchOption};
ghost use Rattle.sea_top.specs.Header.{header_bytes};
ghost use Rattle.sea_top.specs.RecordParts.{BeginsWithHeader, BeginsWithNoHeader};

use sea_base::{Commit, Digest, digest_at, is_zero, put_bytes, put_u32, put_u64, u32_at, u64_at};

/// How many bytes stand before a record's pieces.
pub const HEADER_BYTES: usize = 96;

/// Where a record names how many blocks it takes.
pub const BLOCKS_AT: usize = 16;

/// Where a record's own digest stands.
pub const DIGEST_AT: usize = 64;

const MAGIC: &[u8; 8] = b"SEAPLAIN";

/// What the first bytes of a record say.
#[derive(Debug, Drop)]
pub struct Header {
    /// The record's commit number.
    pub commit: Commit,
    /// How many blocks it takes.
    pub blocks: u32,
    /// How many bytes its pieces take.
    pub body_len: u32,
    /// The digest of the record before it.
    pub previous: Digest,
    /// Its own digest.
    pub digest: Digest,
}

/// Writes a header into the front of bytes that are zero.
pub fn put_header(buffer: &mut [u8], header: &Header)
    requires room { 96 ≤ length buffer.old }
    requires zero { buffer.old ≡ replicate (length buffer.old) 0 }
    ensures { buffer.new ≡ header_bytes header.now ++ replicate (length buffer.old - 96) 0 }
{
    put_bytes(buffer, 0, MAGIC);
    put_u64(buffer, 8, header.commit.0);
    put_u32(buffer, BLOCKS_AT, header.blocks);
    put_u32(buffer, 20, header.body_len);
    put_bytes(buffer, 32, &header.previous.0);
    put_bytes(buffer, DIGEST_AT, &header.digest.0);
}

/// The header that the bytes begin with.
pub fn read_header(bytes: &[u8]) -> Option<Header>
    ensures { MatchOption result (BeginsWithNoHeader bytes.now) (BeginsWithHeader bytes.now) }
{
    if bytes.len() < HEADER_BYTES || &bytes[..8] != MAGIC.as_slice() || !is_zero(&bytes[24..32]) {
        return None;
    }
    Some(Header {
        commit: Commit(u64_at(bytes, 8)),
        blocks: u32_at(bytes, BLOCKS_AT),
        body_len: u32_at(bytes, 20),
        previous: digest_at(bytes, 32),
        digest: digest_at(bytes, DIGEST_AT),
    })
}
