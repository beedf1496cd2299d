//! Addresses, places of blocks, numbers of commits, and where trees of blocks begin.

use crate::Sum;

/// A logical address. What stands there keeps it, wherever its block lies.
#[derive(Clone, Copy, Debug, PartialEq, Eq, PartialOrd, Ord)]
pub struct Laddr(pub u64);

/// The place of a block on a device, counted from 0.
#[derive(Clone, Copy, Debug, PartialEq, Eq, PartialOrd, Ord)]
pub struct Paddr(pub u32);

/// The number of a commit, counted from 1; 0 stands before the first.
#[derive(Clone, Copy, Debug, PartialEq, Eq, PartialOrd, Ord)]
pub struct Commit(pub u64);

/// The root of a tree of physical nodes. An empty tree has height 0, block 0 and sum 0.
#[derive(Clone, Copy, Debug, PartialEq, Eq)]
pub struct PRoot {
    /// The block of the root.
    pub at: Paddr,
    /// How many levels the tree has, to 8. That of a leaf alone is 1.
    pub height: u32,
    /// The sum of the root's block.
    pub sum: Sum,
}

/// What a record or a header says of the store: the two trees, and the next address to be given.
#[derive(Clone, Copy, Debug, PartialEq, Eq)]
pub struct Root {
    /// The tree from logical addresses to places.
    pub lba: PRoot,
    /// The tree from places to their owners.
    pub owners: PRoot,
    /// The next logical address, 2 or more.
    pub next: Laddr,
}

/// The first record of the journal that is still needed.
#[derive(Clone, Copy, Debug, PartialEq, Eq)]
pub struct Tail {
    /// The sequence number of its segment, from 1 on.
    pub seq: u64,
    /// The block at which it begins.
    pub place: Paddr,
}

/// Where the content of a logical address was placed.
#[derive(Clone, Copy, Debug, PartialEq, Eq)]
pub struct Slot {
    /// The block that holds it.
    pub at: Paddr,
    /// The version that it had as it was placed.
    pub version: Commit,
    /// The sum of that block.
    pub sum: Sum,
}
