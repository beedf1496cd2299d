//! Trees, read from their blocks.
ghost use Rattle.std.specs.Prelude.{◌≡◌, ◌++◌, IfOk, IfErr, OnOk};
ghost use Rattle.sea_tree.specs.Subtrees.{Holds};
ghost use Rattle.sea_tree.specs.Tree.{IsSubtree, IsTree};
ghost use Rattle.sea_formed.specs.Blocks.{store_of};
ghost use Rattle.sea_formed.specs.Place.{meant};
ghost use Rattle.sea_formed.specs.Trees.{IsTreeOf};
ghost use Rattle.sea_formed.specs.Wrong.{Refutes};

use crate::blocks::Blocks;
use crate::place::{Bounds, child_at, node_at};
use crate::wrong::Wrong;
use sea_base::{Data, Key, NoMemory};
use sea_node::Node;
use std::alloc::Global;

/// What a tree has: its pairs in order, and the addresses of its nodes.
#[derive(Debug, Drop)]
pub struct Tree {
    /// The keys with their values.
    pub pairs: Vec<(Key, Data)>,
    /// The addresses of the nodes, parents first.
    pub nodes: Vec<u64>,
}

impl Tree {
    // Appends what another one has.
    fn append(&mut self, mut other: Tree) -> Result<(), NoMemory>
        ensures pairs { OnOk result
            (self.new.pairs.items ≡ self.old.pairs.items ++ other.pairs.items) }
        ensures nodes { OnOk result
            (self.new.nodes.items ≡ self.old.nodes.items ++ other.nodes.items) }
    {
        self.pairs.append(&mut other.pairs)?;
        self.nodes.append(&mut other.nodes)?;
        Ok(())
    }
}

// Reads the nodes from an address down, which is of this level.
fn read_subtree(
    alloc: Global,
    blocks: &Blocks,
    at: u64,
    level: u32,
    bounds: &Bounds,
) -> Result<Tree, Wrong>
    ensures holds { IfOk result (λ tree.
        Holds (store_of blocks.now) level at (meant bounds.now) tree.pairs.items tree.nodes.items) }
    ensures wrong { IfErr result (λ wrong.
        Refutes wrong (IsSubtree (store_of blocks.now) level at (meant bounds.now))) }
{
    let node = node_at(alloc, blocks, at, level, bounds)?;
    let mut tree = Tree {
        pairs: Vec::new(alloc),
        nodes: Vec::new(alloc),
    };
    tree.nodes.push(at)?;
    if level == 0 {
        tree.pairs = node.entries.into_vec();
        return Ok(tree);
    }
    for index in 0..node.entries.items().len() {
        let child = child_at(&node, index);
        let asked = Bounds::of_child(&node, index, bounds.upper.as_ref())?;
        let below = read_subtree(alloc, blocks, child, level - 1, &asked)?;
        tree.append(below)?;
    }
    Ok(tree)
}

/// Reads the tree of a root, of which each node is in its place.
pub fn read_tree(alloc: Global, blocks: &Blocks, root: u64) -> Result<Tree, Wrong>
    ensures tree { IfOk result (λ tree.
        IsTreeOf (store_of blocks.now) root tree.pairs.items tree.nodes.items) }
    ensures wrong { IfErr result (λ wrong. Refutes wrong (IsTree (store_of blocks.now) root)) }
{
    let Some(block) = blocks.get(root) else {
        return Ok(Tree {
            pairs: Vec::new(alloc),
            nodes: Vec::new(alloc),
        });
    };
    let Some(node) = Node::parse(alloc, block)? else {
        return Err(Wrong::Breaks("a root is a node"));
    };
    let bounds = Bounds::root(alloc)?;
    read_subtree(alloc, blocks, root, node.level, &bounds)
}
