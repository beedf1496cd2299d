//! The leaf that a key leads to, and the change of its pair in place.
ghost use Rattle.std.specs.Prelude.{◌≤◌, List, IfOk, IfSome, length};
ghost use Rattle.std.specs.Option.{option_copied};
ghost use Rattle.sea_node.specs.Entries.{Entry};
ghost use Rattle.sea_node.specs.Node.{Spells};
ghost use Rattle.sea_tree.specs.Form.{KeepsPlace};

use crate::place::LEAST_BYTES;
use crate::plan::{Plan, Writes};
use crate::splice::Splice;
use sea_base::{Block, Data, Key, Laddr, NoMemory};
use sea_node::{BlockEdit, Node, ROOM_BYTES, VALUE_BYTES};
use std::alloc::Global;
use std::slice;

/// The leaf that a key leads to.
#[derive(Debug, Drop)]
pub(crate) struct Leaf {
    /// Its address.
    pub at: Laddr,
    /// Its block.
    pub block: Block,
    /// The value that it has under the key.
    pub value: Option<Data>,
}

impl Leaf {
    /// What is to be written of the leaf where it keeps its place with the key's pair put or
    /// removed: the splice of its block. There is nothing where it has to be rebalanced, and a root
    /// with few bytes of entries is left to that as well.
    pub fn kept(
        &self,
        alloc: Global,
        key: &Key,
        value: Option<&Data>,
    ) -> Result<Option<Plan>, NoMemory>
        requires { IfSome (option_copied value) (λ v. length v ≤ VALUE_BYTES) }
        ensures { IfOk result (λ found. IfSome found (λ plan. (entries : List Entry)
            → Spells self.now.block 0 entries
            → KeepsPlace self.now.at.0 self.now.block entries key.now (option_copied value.entry)
            plan)) }
    {
        // The bytes of a key are a name.
        prove!(!key.bytes().is_empty());
        let Some(edit) = Node::splice(alloc, &self.block, key, value)? else {
            return Ok(None);
        };
        let BlockEdit { size, delta, .. } = edit;
        if size < LEAST_BYTES as usize || size > ROOM_BYTES {
            return Ok(None);
        }
        let Some(block) = sea_delta::apply(alloc, &self.block, slice::from_ref(&delta))? else {
            unreachable!();
        };
        Ok(Some(Plan {
            writes: Writes::new(alloc),
            splice: Some(Splice {
                at: self.at,
                delta,
                block,
            }),
        }))
    }
}
