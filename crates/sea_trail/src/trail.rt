//! The trail of an image, as a value.

use crate::Link;
use sea_base::{Commit, Digest, Paddr, Root, Sequence, Tail};
use sea_record::Record;
use sea_segment::Header;

/// A segment with its records.
#[derive(Debug, Drop)]
pub struct Part {
    /// The header of the segment.
    pub header: Header,
    /// The records of its chain.
    pub records: Sequence<Record>,
    /// The block behind the last of them.
    pub end: Paddr,
    /// What the last of them hands on, or the header where there is none.
    pub last: Link,
}

/// Which segments and records of an image count.
#[derive(Debug, Drop)]
pub struct Trail {
    /// How many segments the image has.
    pub segments: u32,
    /// The open segment.
    pub active: u32,
    /// Its sequence number.
    pub seq: u64,
    /// The block behind its last record, or behind its header where it has none.
    pub end: Paddr,
    /// The mount number of the last record or header.
    pub mount: u64,
    /// The number of the last record.
    pub commit: Commit,
    /// The digest of the last record or header.
    pub last: Digest,
    /// The first record that is still needed, by the last record or header.
    pub tail: Tail,
    /// The trees, and the next address.
    pub root: Root,
    /// The records from the tail on.
    pub records: Sequence<Record>,
    /// The headers of all segments that have one, by segments.
    pub headers: Sequence<Header>,
}
