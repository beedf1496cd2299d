//! What one link of the trail hands on to the next.

use sea_base::{Commit, Digest, Root, Tail};

/// What a header or a record says to what goes on from it.
#[derive(Clone, Copy, Debug, PartialEq, Eq)]
pub struct Link {
    /// How often the store had been opened.
    pub mount: u64,
    /// The number of the last record.
    pub commit: Commit,
    /// Its own digest.
    pub digest: Digest,
    /// The first record that was still needed.
    pub tail: Tail,
    /// The trees, and the next address.
    pub root: Root,
}
