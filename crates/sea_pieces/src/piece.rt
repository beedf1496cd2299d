//! Pieces: what a record lays over objects.

use sea_base::{Data, Duplicate, Name, NoMemory, Sequence};

/// Bytes that an object gets from an offset on. The object is made where there is none, also for no
/// bytes.
#[derive(Debug, PartialEq, Eq, Drop)]
pub struct Piece {
    pub name: Name,
    pub offset: u32,
    pub bytes: Data,
}

/// Pieces, in order.
pub type Pieces = Sequence<Piece>;

impl Duplicate for Piece {
    fn copy(&self) -> Result<Piece, NoMemory> {
        Ok(Piece {
            name: self.name.copy()?,
            offset: self.offset,
            bytes: self.bytes.copy()?,
        })
    }
}
