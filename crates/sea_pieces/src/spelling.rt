//! Pieces spelled as bytes, and read from them.
ghost use Rattle.std.specs.Prelude.{◌≡◌, ◌+◌, ◌^◌, ◌<◌, ◌≤◌, ◌↔◌, ◌++◌, List, Some};
ghost use Rattle.std.specs.Prelude.{IfOk, OnOk, IsTrue, MatchOption};
ghost use Rattle.std.specs.List.{AllByRecursion};
ghost use Rattle.sea_pieces.specs.declared.piece.Piece.{Piece};
ghost use Rattle.sea_pieces.specs.Spelling.{IsPiece, piece_bytes, spelling};
ghost use Rattle.sea_pieces.specs.Spelling.{BeginsWithPiece, BeginsWithNoPiece};
ghost use Rattle.sea_pieces.specs.Spelling.{ArePieces, AreNoPieces};

use crate::{Piece, Pieces};
use sea_base::{Data, Name, NameFault, NoMemory, push_u32, u32_at};
use sea_object::OBJECT_BYTES;
use std::alloc::Global;

/// The bytes of pieces, one behind the other.
pub fn spell_pieces(alloc: Global, pieces: &[Piece]) -> Result<Data, NoMemory>
    requires { AllByRecursion IsPiece pieces.now }
    ensures { IfOk result (λ bytes. bytes ≡ spelling pieces.now) }
{
    let mut bytes = Vec::new(alloc);
    for piece in pieces {
        push_piece(&mut bytes, piece)?;
    }
    Ok(Data::from_vec(bytes)?)
}

fn push_piece(bytes: &mut Vec<u8>, piece: &Piece) -> Result<(), NoMemory>
    requires { IsPiece piece.now }
    ensures { OnOk result (bytes.new.items ≡ bytes.old.items ++ piece_bytes piece.now) }
{
    let name = piece.name.bytes();
    bytes.push(name.len() as u8)?;
    bytes.extend_from_slice(name)?;
    push_u32(bytes, piece.offset)?;
    push_u32(bytes, piece.bytes.len() as u32)?;
    bytes.extend_from_slice(piece.bytes.bytes())?;
    Ok(())
}

/// The pieces that the bytes spell, all of the bytes; none where they spell none.
pub fn read_pieces(alloc: Global, bytes: &[u8]) -> Result<Option<Pieces>, NoMemory>
    ensures found { IfOk result (λ found.
        MatchOption found (AreNoPieces bytes.now) (ArePieces bytes.now)) }
    ensures only { (pieces : List Piece) → ArePieces bytes.now pieces →
        IfOk result (λ found. found ≡ Some pieces) }
{
    let mut pieces = Pieces::new(alloc);
    let mut rest = bytes;
    while !rest.is_empty() {
        let Some((piece, behind)) = read_piece(alloc, rest)? else {
            return Ok(None);
        };
        pieces.push(piece)?;
        rest = behind;
    }
    Ok(Some(pieces))
}

// The piece that a prefix of the bytes spells, and the bytes behind it.
fn read_piece(alloc: Global, bytes: &[u8]) -> Result<Option<(Piece, &[u8])>, NoMemory>
    ensures { IfOk result (λ found.
        MatchOption found (BeginsWithNoPiece bytes.now)
        (λ x. BeginsWithPiece bytes.now x.0 x.1.now)) }
{
    let name_len = match bytes {
        [] => return Ok(None),
        [first, ..] => *first as usize,
    };
    let name_end = 1 + name_len;
    if bytes.len() < name_end + 8 {
        return Ok(None);
    }
    let offset = u32_at(bytes, name_end);
    let count = u32_at(bytes, name_end + 4) as usize;
    let end = name_end + 8 + count;
    if bytes.len() < end || !is_range(offset, count) {
        return Ok(None);
    }
    let name = match Name::new(alloc, &bytes[1..name_end]) {
        Ok(name) => name,
        Err(NameFault::BadName) => return Ok(None),
        Err(NameFault::NoMemory) => return Err(NoMemory),
    };
    let data = Data::new(alloc, &bytes[name_end + 8..end])?;
    let piece = Piece {
        name,
        offset,
        bytes: data,
    };
    Ok(Some((piece, &bytes[end..])))
}

// Whether so many bytes from an offset on lie within an object.
fn is_range(offset: u32, len: usize) -> bool
    requires { len < 2 ^ 32 }
    ensures { IsTrue result ↔ (offset + len ≤ 16777216) }
{
    offset as usize + len <= OBJECT_BYTES as usize
}
