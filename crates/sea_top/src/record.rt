//! Plain records: what a request writes, as one run of blocks.
mod header;
mod reading;
mod writing;

pub use header::{BLOCKS_AT, DIGEST_AT};
pub use reading::{RECORD_BLOCKS, read_record};
use sea_base::{Commit, Data, Digest, Name, Sequence};
pub use writing::{push_record, record_blocks};

/// Bytes that an object gets from an offset on. The object is made where there is none.
#[derive(Debug, Drop)]
pub struct Piece {
    pub name: Name,
    pub offset: u32,
    pub bytes: Data,
}

/// The pieces of a record, in order.
pub type Pieces = Sequence<Piece>;

/// A plain record: its commit number, the digest of the record before it, and its pieces.
#[derive(Debug, Drop)]
pub struct PlainRecord {
    pub commit: Commit,
    pub previous: Digest,
    pub pieces: Pieces,
}

#[cfg(test)]
mod tests;
