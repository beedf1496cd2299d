//! The edit of a node in place: the splice of its block, with no list of the node's entries.
ghost use Rattle.std.specs.Prelude.{◌≡◌, ℕ, ◌+◌, ◌≤◌, List, IfOk, IfSome, IfNone, length};
ghost use Rattle.std.specs.Option.{option_copied};
ghost use Rattle.sea_node.specs.Entries.{Entry, IsRising, size, entries_before, entries_at};
ghost use Rattle.sea_node.specs.Node.{Spells};
ghost use Rattle.sea_node.specs.Lookup.{Passes, HasSpans};
ghost use Rattle.sea_node.specs.BlockEdit.{IsEdit};

use crate::Node;
use crate::edit::{Place, bytes_put};
use crate::lookup::Passed;
use crate::node::FRONT_BYTES;
use crate::reading::{LENGTHS_BYTES, VALUE_BYTES};
use sea_base::{BLOCK_BYTES, Block, Data, Delta, Key, NoMemory};
use std::alloc::Global;

#[cfg(test)]
mod tests;

/// An edit of the node that a block spells, as a splice of the block.
#[derive(Debug, Drop)]
pub struct BlockEdit {
    /// The level of the node: 0 for a leaf, to 7.
    pub level: u32,
    /// How many bytes the entries take after the edit, which may be more than a node has room for.
    pub size: usize,
    /// The splice. It makes the block of the edited node where the entries fit.
    pub delta: Delta,
}

impl Node {
    /// The splice of a block that puts a value under a key in the node that the block spells, or with
    /// none removes the key, if the block spells a node. It replaces whole entries, also where the
    /// value is equal.
    pub fn splice(
        alloc: Global,
        block: &Block,
        key: &Key,
        value: Option<&Data>,
    ) -> Result<Option<BlockEdit>, NoMemory>
        requires { IfSome (option_copied value) (λ value. length value ≤ VALUE_BYTES) }
        ensures some { IfOk result (λ found. IfSome found (λ edit.
            (entries : List Entry) × Spells block.now edit.level entries
            × IsEdit key.now (option_copied value.entry) entries edit)) }
        ensures none { IfOk result (λ found.
            IfNone found
            ((level : ℕ) (entries : List Entry) → Spells block.now level entries → ⊥)) }
    {
        let Some((level, passed)) = Passed::of(block, key) else {
            return Ok(None);
        };
        let place = place_of(&passed, block.bytes(), key.bytes());
        let put = bytes_put(alloc, key, value)?;
        Ok(Some(BlockEdit {
            level,
            size: passed.last.end - FRONT_BYTES - place.size + put.len(),
            delta: Delta {
                cut: (FRONT_BYTES + place.before) as u16,
                gone: place.size as u16,
                put,
            },
        }))
    }
}

// Where a key stands among the entries that tell of it.
fn place_of(passed: &Passed, bytes: &[u8], key: &[u8]) -> Place
    requires block { length bytes.now ≡ BLOCK_BYTES }
    requires spans { HasSpans bytes.now passed.now }
    requires passed { (entries : List Entry) × IsRising entries
        × Passes bytes.now key.now entries passed.now }
    ensures before { (entries : List Entry) → IsRising entries
        → Passes bytes.now key.now entries passed.now
        → result.before ≡ size (entries_before key.now entries) }
    ensures size { (entries : List Entry) → IsRising entries
        → Passes bytes.now key.now entries passed.now
        → result.size ≡ size (entries_at key.now entries) }
{
    let Some(found) = passed.found else {
        return Place { before: 0, size: 0 };
    };
    let before = found.end - FRONT_BYTES;
    if &bytes[found.key_at..found.value_at] != key {
        return Place { before, size: 0 };
    }
    let size = LENGTHS_BYTES + (found.end - found.key_at);
    Place {
        before: before - size,
        size,
    }
}
