//! A node, and the block that spells it.
ghost use Rattle.std.specs.Prelude.{ℕ, List, IfOk, IfSome, IfNone};
ghost use Rattle.sea_node.specs.Entries.{Entry};
ghost use Rattle.sea_node.specs.Node.{IsNode, Spells};

use crate::entry::push_entry;
use crate::reading::{is_node, read_entries, read_level};
use sea_base::{BLOCK_BYTES, Block, NoMemory, Pairs};
use std::alloc::Global;

/// The word that a node's block begins with.
pub const MAGIC: &[u8; 4] = b"SNOD";

/// How many bytes stand before the entries.
pub const FRONT_BYTES: usize = 32;

/// How many bytes of entries a node has room for.
pub const ROOM_BYTES: usize = 4064;

/// A node of a logical tree: its entries rise strictly by the bytes of their keys.
#[derive(Debug, Drop)]
pub struct Node {
    /// 0 for a leaf, to 7.
    pub level: u32,
    /// The keys with their values. Above the leaves a value is the address of a child, in 8 bytes.
    pub entries: Pairs,
}

impl Node {
    /// The node that a block spells, if it spells one.
    pub fn parse(alloc: Global, block: &Block) -> Result<Option<Node>, NoMemory>
        ensures some { IfOk result (λ found.
            IfSome found (λ node. Spells block.now node.level node.entries)) }
        ensures none { IfOk result (λ found.
            IfNone found
            ((level : ℕ) (entries : List Entry) → Spells block.now level entries → ⊥)) }
    {
        let Some(level) = read_level(block) else {
            return Ok(None);
        };
        let Some(entries) = read_entries(alloc, block)? else {
            return Ok(None);
        };
        if !is_node(level, entries.items()) {
            return Ok(None);
        }
        Ok(Some(Node { level, entries }))
    }

    /// The block that spells the node.
    pub fn print(&self, alloc: Global) -> Result<Block, NoMemory>
        requires { IsNode self.now.level self.now.entries }
        ensures { IfOk result (λ block. Spells block self.now.level self.now.entries) }
    {
        let mut bytes = Vec::with_capacity(alloc, BLOCK_BYTES)?;
        bytes.extend_from_slice(MAGIC)?;
        bytes.push(self.level as u8)?;
        bytes.resize(FRONT_BYTES, 0)?;
        for (key, value) in self.entries.items() {
            push_entry(&mut bytes, key, value)?;
        }
        bytes.resize(BLOCK_BYTES, 0)?;
        Block::from_vec(bytes)
    }
}
