//! Records written as bytes.
ghost use Rattle.std.specs.Prelude.{◌≡◌, ◌+◌, ◌-◌, ◌*◌, ◌/◌, ◌^◌, ◌<◌, ◌≤◌, ◌++◌, length, replicate, take, drop, IfOk, OnErr};
ghost use Rattle.std.specs.List.{AllByRecursion};
ghost use Rattle.sea_top.specs.Record.{IsPiece, IsPlain, piece_bytes, body_bytes, blocks_of, digest_of, spelling};

use crate::record::header::{DIGEST_AT, HEADER_BYTES, Header, put_header};
use crate::{Piece, PlainRecord};
use sea_base::{BLOCK_BYTES, Digest, NoMemory, digest_of, put_bytes, put_u32};

/// The blocks that a record with these pieces takes.
pub fn record_blocks(pieces: &[Piece]) -> u32
    requires pieces { AllByRecursion IsPiece pieces.now }
    requires few { length pieces.now ≤ 16 }
    ensures { result ≡ blocks_of pieces.now }
{
    blocks_for(body_len(pieces))
}

/// Appends the record's spelling, in whole blocks, and answers its digest. After want of memory `out` is as it was.
pub fn push_record(out: &mut Vec<u8>, plain: &PlainRecord) -> Result<Digest, NoMemory>
    requires { IsPlain plain.now }
    ensures ok { IfOk result (λ digest. (out.new.items ≡ out.old.items ++ spelling plain.now) × (digest.0 ≡ digest_of plain.now)) }
    ensures err { OnErr result (out.new.items ≡ out.old.items) }
{
    let body_len = body_len(plain.pieces.items());
    let blocks = blocks_for(body_len);
    let start = out.len();
    out.resize(start + BLOCK_BYTES * blocks as usize, 0)?;
    Ok(fill(&mut out[start..], plain, blocks, body_len))
}

// The number of blocks for pieces of so many bytes.
fn blocks_for(body_len: u32) -> u32
    requires { body_len < 2 ^ 32 - 8192 }
    ensures { result ≡ (96 + body_len + 4095) / 4096 }
{
    (HEADER_BYTES as u32 + body_len + 4095) / 4096
}

// The number of bytes that pieces take.
fn body_len(pieces: &[Piece]) -> u32
    requires { length (body_bytes pieces.now) < 2 ^ 32 }
    ensures { result ≡ length (body_bytes pieces.now) }
{
    let mut sum = 0;
    for piece in pieces {
        sum += piece_len(piece);
    }
    sum
}

// The number of bytes that a piece takes.
fn piece_len(piece: &Piece) -> u32
    requires { length (piece_bytes piece.now) < 2 ^ 32 }
    ensures { result ≡ length (piece_bytes piece.now) }
{
    (1 + piece.name.bytes().len() + 4 + 4 + piece.bytes.len()) as u32
}

// Writes a record into its blocks, which are zero.
fn fill(buffer: &mut [u8], plain: &PlainRecord, blocks: u32, body_len: u32) -> Digest
    requires plain { IsPlain plain.now }
    requires taken { blocks ≡ blocks_of plain.now.pieces }
    requires body { body_len ≡ length (body_bytes plain.now.pieces) }
    requires zero { buffer.old ≡ replicate (4096 * blocks) 0 }
    ensures spelled { buffer.new ≡ spelling plain.now }
    ensures digest { result.0 ≡ digest_of plain.now }
{
    let header = Header {
        commit: plain.commit,
        blocks,
        body_len,
        previous: plain.previous,
        digest: Digest([0; 32]),
    };
    put_header(buffer, &header);
    put_pieces(buffer, plain.pieces.items());
    let digest = digest_of(buffer);
    put_bytes(buffer, DIGEST_AT, &digest.0);
    digest
}

// Writes pieces behind the header.
fn put_pieces(buffer: &mut [u8], pieces: &[Piece])
    requires pieces { AllByRecursion IsPiece pieces.now }
    requires room { 96 + length (body_bytes pieces.now) ≤ length buffer.old }
    ensures { buffer.new ≡ take 96 buffer.old ++ body_bytes pieces.now ++ drop (96 + length (body_bytes pieces.now)) buffer.old }
{
    let mut at = HEADER_BYTES;
    for piece in pieces {
        at = put_piece(buffer, at, piece);
    }
}

// Writes a piece from `at` on, and answers where it ends.
fn put_piece(buffer: &mut [u8], at: usize, piece: &Piece) -> usize
    requires piece { IsPiece piece.now }
    requires room { at + length (piece_bytes piece.now) ≤ length buffer.old }
    ensures written { buffer.new ≡ take at buffer.old ++ piece_bytes piece.now ++ drop (at + length (piece_bytes piece.now)) buffer.old }
    ensures end { result ≡ at + length (piece_bytes piece.now) }
{
    let name = piece.name.bytes();
    let bytes = piece.bytes.bytes();
    let name_end = at + 1 + name.len();
    put_bytes(buffer, at, &[name.len() as u8]);
    put_bytes(buffer, at + 1, name);
    put_u32(buffer, name_end, piece.offset);
    put_u32(buffer, name_end + 4, bytes.len() as u32);
    put_bytes(buffer, name_end + 8, bytes);
    name_end + 8 + bytes.len()
}
