//! Whether a journal can go on behind a trail.
ghost use Rattle.std.specs.Prelude.{◌≤◌, ◌↔◌, IsTrue};
ghost use Rattle.sea_base.specs.RootFields.{IsPRoot, IsRoot, IsTail};
ghost use Rattle.sea_journal.specs.Resume.{CanResume, HasFields, HasNumbers, HasRoom};

use crate::SEGMENT_BLOCKS;
use sea_base::{PRoot, Root, Tail};
use sea_segment::MAX_SEGMENTS;
use sea_trail::{Trail, blocks_needed, first_block};

const END_OF_NUMBERS: u64 = 1 << 63;

// A number that is no less is used up.
const END_OF_USE: u64 = 1 << 62;

/// Whether a journal can go on behind this trail on a device of so many blocks: it ends in its open
/// segment, and none of its numbers is used up.
pub fn can_resume(trail: &Trail, blocks: u32) -> bool
    ensures { IsTrue result ↔ CanResume trail.now blocks }
{
    has_room(trail, blocks) && has_numbers(trail) && has_fields(trail)
}

// Whether its tail and its roots are some.
fn has_fields(trail: &Trail) -> bool
    ensures { IsTrue result ↔ HasFields trail.now }
{
    is_tail(&trail.tail) && is_root(&trail.root)
}

// Whether the segments are on the device, and the trail ends in the open one.
fn has_room(trail: &Trail, blocks: u32) -> bool
    ensures { IsTrue result ↔ HasRoom trail.now blocks }
{
    if trail.segments > MAX_SEGMENTS || trail.active >= trail.segments {
        return false;
    }
    let first = first_block(trail.active);
    let end = first + (SEGMENT_BLOCKS - 1);
    first <= trail.end.0 && trail.end.0 <= end && blocks_needed(trail.segments) <= blocks
}

// Whether none of its numbers is used up.
fn has_numbers(trail: &Trail) -> bool
    ensures { IsTrue result ↔ HasNumbers trail.now }
{
    trail.seq >= 1
        && trail.seq < END_OF_USE
        && trail.mount < END_OF_USE
        && trail.commit.0 < END_OF_USE
}

pub fn is_tail(tail: &Tail) -> bool
    ensures { IsTrue result ↔ IsTail tail.now }
{
    tail.seq >= 1 && tail.seq < END_OF_NUMBERS && tail.place.0 < 1 << 24
}

pub fn is_root(root: &Root) -> bool
    ensures { IsTrue result ↔ IsRoot root.now }
{
    is_proot(&root.lba)
        && is_proot(&root.owners)
        && root.next.0 >= 2
        && root.next.0 < END_OF_NUMBERS
}

fn is_proot(root: &PRoot) -> bool
    ensures { IsTrue result ↔ IsPRoot root.now }
{
    let at = root.at.0;
    let sum = root.sum.0;
    root.height <= 8 && (root.height != 0 || at == 0 && sum == 0)
}
