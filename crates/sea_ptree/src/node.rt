//! A node, and the block that spells it.
ghost use Rattle.std.specs.Prelude.{◌≡◌, ℕ, ◌≤◌, ◌++◌, List, IfOk, IfSome, IfNone, OnOk, length};
ghost use Rattle.sea_ptree.specs.Reading.{AreRead};
ghost use Rattle.sea_ptree.specs.Node.{Entry, IsNode, Spells, entry_bytes, node_bytes};

use crate::Kind;
use crate::mark::Mark;
use crate::reading::{ENTRY_BYTES, FRONT_BYTES, entry_at};
use sea_base::{BLOCK_BYTES, Block, NoMemory, Sequence, Slot, put_u16, put_u32, put_u64};
use std::alloc::Global;

/// Keys with their slots.
pub type Entries = Sequence<(u64, Slot)>;

/// A node of a tree of physical nodes: its keys rise strictly.
#[derive(Debug, Drop)]
pub struct Node {
    /// 0 for a leaf, to 7.
    pub level: u32,
    /// The keys with their slots, 1 to 145 of them. Above the leaves a slot has the place and the
    /// sum of a child, and its version is 0.
    pub entries: Entries,
}

impl Node {
    /// The node of a tree of this kind that a block spells, if it spells one.
    pub fn parse(alloc: Global, kind: Kind, block: &Block) -> Result<Option<Node>, NoMemory>
        ensures some { IfOk result (λ found. IfSome found
            (λ node. Spells kind block.now node.level node.entries)) }
        ensures none { IfOk result (λ found. IfNone found ((level : ℕ) (entries : List Entry)
            → Spells kind block.now level entries → ⊥)) }
    {
        let Some(mark) = Mark::of(block) else {
            return Ok(None);
        };
        if mark.kind != kind {
            return Ok(None);
        }
        let entries = read_entries(alloc, block, mark.count)?;
        Ok(Some(Node {
            level: mark.level,
            entries: Entries::from_vec(entries),
        }))
    }

    /// The block that spells the node.
    pub fn print(&self, alloc: Global, kind: Kind) -> Result<Block, NoMemory>
        requires { IsNode kind self.now.level self.now.entries }
        ensures { IfOk result (λ block. Spells kind block self.now.level self.now.entries) }
    {
        print_node(alloc, kind, self.level, self.entries.items())
    }
}

/// The first entries of a block.
pub(crate) fn read_entries(
    alloc: Global,
    block: &Block,
    count: usize,
) -> Result<Vec<(u64, Slot)>, NoMemory>
    requires { count ≤ 145 }
    ensures { IfOk result (λ made. (entries : List Entry) → AreRead block.now count entries
        → made.items ≡ entries) }
{
    let mut entries = Vec::with_capacity(alloc, count)?;
    for index in 0..count {
        entries.push(entry_at(block, index))?;
    }
    Ok(entries)
}

/// The block of a node with these entries, in any order.
pub(crate) fn print_node(
    alloc: Global,
    kind: Kind,
    level: u32,
    entries: &[(u64, Slot)],
) -> Result<Block, NoMemory>
    requires level { level ≤ 7 }
    requires room { length entries.now ≤ 145 }
    ensures { IfOk result (λ block. block ≡ node_bytes kind level entries.now) }
{
    let mut count = [0; 2];
    put_u16(&mut count, 0, entries.len() as u16);
    let mut bytes = Vec::with_capacity(alloc, BLOCK_BYTES)?;
    bytes.extend_from_slice(kind.word())?;
    bytes.extend_from_slice(&[level as u8, 0])?;
    bytes.extend_from_slice(&count)?;
    bytes.resize(FRONT_BYTES, 0)?;
    for (key, slot) in entries {
        push_entry(&mut bytes, *key, *slot)?;
    }
    bytes.resize(BLOCK_BYTES, 0)?;
    Block::from_vec(bytes)
}

// Appends the bytes of an entry.
fn push_entry(bytes: &mut Vec<u8>, key: u64, slot: Slot) -> Result<(), NoMemory>
    ensures { OnOk result (bytes.new.items ≡ bytes.old.items ++ entry_bytes (key, slot)) }
{
    let mut fields = [0; ENTRY_BYTES];
    put_u64(&mut fields, 0, key);
    put_u32(&mut fields, 8, slot.at.0);
    put_u64(&mut fields, 12, slot.version.0);
    put_u64(&mut fields, 20, slot.sum.0);
    bytes.extend_from_slice(&fields)?;
    Ok(())
}
