//! A node read in its block, by the places of its fields.
ghost use Rattle.std.specs.Prelude.{◌≡◌, ℕ, ◌+◌, ◌*◌, ◌≤◌, ◌↔◌, List, length, slice_range};
ghost use Rattle.std.specs.Prelude.{slice_get, Some, IfSome, IfNone, IsTrue};
ghost use Rattle.std.specs.List.{AllByRecursion};
ghost use Rattle.sea_ptree.specs.Node.{Entry, Fits, MayStand, IsRising, entry_bytes, Spells};
ghost use Rattle.sea_ptree.specs.Reading.{HasFront, AreRead};

use crate::Kind;
use sea_base::{Block, Commit, Paddr, Slot, Sum, is_zero, u16_at, u32_at, u64_at};

/// How many bytes stand before the entries.
pub(crate) const FRONT_BYTES: usize = 32;

/// How many bytes an entry takes.
pub(crate) const ENTRY_BYTES: usize = 28;

/// A node has these entries at most.
pub const MOST_ENTRIES: usize = 145;

pub(crate) const LEVEL_AT: usize = 4;

const COUNT_AT: usize = 6;

const ZEROS_AT: usize = 8;

/// How many entries a block has that spells a node of this level.
pub(crate) fn entry_count(block: &Block, kind: Kind, level: u32) -> Option<usize>
    requires { level ≤ 7 }
    ensures some { IfSome result (λ count. (entries : List Entry)
        × Spells kind block.now level entries × (length entries ≡ count)) }
    ensures none { IfNone result ((entries : List Entry) → Spells kind block.now level entries
        → ⊥) }
{
    let count = front_count(block, kind, level)?;
    if !are_entries(block, kind, level, count) {
        return None;
    }
    Some(count)
}

// How many entries there are by the bytes around them.
fn front_count(block: &Block, kind: Kind, level: u32) -> Option<usize>
    requires { level ≤ 7 }
    ensures some { IfSome result (HasFront kind level block.now) }
    ensures none { IfNone result ((count : ℕ) → HasFront kind level block.now count → ⊥) }
{
    let bytes = block.bytes();
    let count = u16_at(bytes, COUNT_AT) as usize;
    if count == 0 || count > MOST_ENTRIES {
        return None;
    }
    if &bytes[..LEVEL_AT] != kind.word().as_slice()
        || &bytes[LEVEL_AT..COUNT_AT] != [level as u8, 0].as_slice()
    {
        return None;
    }
    let end = FRONT_BYTES + ENTRY_BYTES * count;
    if !is_zero(&bytes[ZEROS_AT..FRONT_BYTES]) || !is_zero(&bytes[end..]) {
        return None;
    }
    Some(count)
}

// Whether the entries of a block may be those of a node.
fn are_entries(block: &Block, kind: Kind, level: u32, count: usize) -> bool
    requires { (1 ≤ count) × (count ≤ 145) }
    ensures read { IsTrue result → (entries : List Entry) × AreRead block.now count entries }
    ensures told { (entries : List Entry) → AreRead block.now count entries
        → IsTrue result ↔ (IsRising entries × AllByRecursion
        (λ e. MayStand kind level e.1) entries) }
{
    let (mut last, slot) = entry_at(block, 0);
    if !kind.admits(level, slot) {
        return false;
    }
    for index in 1..count {
        let (key, slot) = entry_at(block, index);
        if key <= last || !kind.admits(level, slot) {
            return false;
        }
        last = key;
    }
    true
}

/// The entry at an index.
pub(crate) fn entry_at(block: &Block, index: usize) -> (u64, Slot)
    requires { index + 1 ≤ 145 }
    ensures length { length block.now ≡ 4096 }
    ensures fits { Fits result }
    ensures spelled { slice_range block.now (32 + 28 * index) (60 + 28 * index)
        ≡ entry_bytes result }
{
    let bytes = block.bytes();
    let at = FRONT_BYTES + ENTRY_BYTES * index;
    let slot = Slot {
        at: Paddr(u32_at(bytes, at + 8)),
        version: Commit(u64_at(bytes, at + 12)),
        sum: Sum(u64_at(bytes, at + 20)),
    };
    (u64_at(bytes, at), slot)
}
