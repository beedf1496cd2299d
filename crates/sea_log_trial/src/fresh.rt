//! What a fresh image of six segments has.
ghost use Rattle.sea_segment.specs.Header.{IsHeader};
ghost use Rattle.sea_segment.specs.Superblock.{IsSegmentCount};

use sea_base::{Commit, Digest, Laddr, PRoot, Paddr, Root, Sum, Tail};
use sea_segment::{Header, Super};

const EMPTY_TREE: PRoot = PRoot {
    at: Paddr(0),
    height: 0,
    sum: Sum(0),
};

/// Its superblock.
pub fn fresh_super() -> Super
    ensures { IsSegmentCount result.segments }
{
    Super { segments: 6 }
}

/// The header of its first segment.
pub fn first_header() -> Header
    ensures { IsHeader result }
{
    Header {
        segment: 0,
        mount: 0,
        seq: 1,
        commit: Commit(0),
        tail: Tail {
            seq: 1,
            place: Paddr(2),
        },
        root: Root {
            lba: EMPTY_TREE,
            owners: EMPTY_TREE,
            next: Laddr(2),
        },
        prev: Digest([0; 32]),
    }
}
