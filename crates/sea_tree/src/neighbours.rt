//! Two adjacent children of a node.
ghost use Rattle.std.specs.Prelude.{◌≡◌, ◌+◌, ◌<◌, ◌≤◌, ◌++◌, OnOk, IfOk, IfErr, IsTrue, length};
ghost use Rattle.sea_base.specs.Space.{IsKnown, OnlyRead};
ghost use Rattle.sea_node.specs.Entries.{size};
ghost use Rattle.sea_node.specs.Node.{IsNode};
ghost use Rattle.sea_tree.specs.Reads.{ReadsOnly};
ghost use Rattle.sea_tree.specs.Rebalanced.{IsNearChild, HasChild, AreNeighbours, IsRebalanceFault};
ghost use Rattle.sea_base.specs.Ghosts.{IsReady, IsCall};
ghost use Rattle.sea_tree.specs.Calls.{space_fault};

use crate::TreeFault;
use crate::edit::push_copies;
use crate::path::Step;
use crate::place::{Bounds, LEAST_BYTES, child_at, node_at};
use sea_base::{Duplicate, Key, Laddr, NoMemory, Pairs, Space};
use sea_node::Node;
use std::alloc::Global;

/// Two adjacent children of a node.
#[derive(Debug, Drop)]
pub(crate) struct Neighbours {
    /// The address of the left one.
    pub left: Laddr,
    /// The address of the right one.
    pub right: Laddr,
    /// The separator that leads to the right one.
    pub separator: Key,
    /// The entries of both, which may be too many for a node.
    pub both: Node,
}

impl Neighbours {
    /// A child in hand with its right neighbour, or the last one with its left one.
    pub(crate) fn of<S: Space>(
        alloc: Global,
        space: &mut S,
        parent: &Step,
        at: Laddr,
        node: &Node,
    ) -> Result<Neighbours, TreeFault>
        requires ready { IsReady S.Space space.old }
        requires parent { IsNode parent.now.node.level parent.now.node.entries }
        requires level { parent.now.node.level ≡ node.now.level + 1 }
        requires index { parent.now.index < length parent.now.node.entries }
        requires child { IsNearChild parent.now node.now.level at.0 node.now.entries }
        requires small { size node.now.entries < LEAST_BYTES }
        ensures held { IfOk result (AreNeighbours node.now.level at.0 node.now.entries parent.now
            (S.seen space.old) (S.seen space.new)) }
        ensures fault { IfErr result (IsRebalanceFault node.now.level parent.now (S.seen space.old)
            (S.seen space.new)) }
        ensures reads { OnlyRead (S.seen space.old) (S.seen space.new) }
        ensures call { IsCall S.Space space.old space.new (space_fault result) }
    {
        let entries = parent.node.entries.items();
        if parent.index + 1 < entries.len() {
            let index = parent.index + 1;
            let (right, neighbour) = child_of(alloc, space, parent, index, node.level)?;
            return Ok(Neighbours {
                left: at,
                right,
                separator: entries[index].0.copy()?,
                both: merged(alloc, node, &neighbour)?,
            });
        }
        let (left, neighbour) = child_of(alloc, space, parent, parent.index - 1, node.level)?;
        Ok(Neighbours {
            left,
            right: at,
            separator: entries[parent.index].0.copy()?,
            both: merged(alloc, &neighbour, node)?,
        })
    }
}

// The child of an entry in its place, with its address.
fn child_of<S: Space>(
    alloc: Global,
    space: &mut S,
    parent: &Step,
    index: usize,
    level: u32,
) -> Result<(Laddr, Node), TreeFault>
    requires ready { IsReady S.Space space.old }
    requires parent { IsNode parent.now.node.level parent.now.node.entries }
    requires level { parent.now.node.level ≡ level + 1 }
    requires index { index < length parent.now.node.entries }
    ensures level { IfOk result (λ found. found.1.level ≡ level) }
    ensures child { IfOk result (λ found.
        HasChild (S.seen space.new).view parent.now index level found.0.0 found.1.entries) }
    ensures known { IfOk result (λ found. IsKnown (S.seen space.new) found.0.0) }
    ensures fault { IfErr result (IsRebalanceFault level parent.now (S.seen space.old)
        (S.seen space.new)) }
    ensures one { IfOk result (λ found. ReadsOnly found.0.0 (S.seen space.old) (S.seen space.new)) }
    ensures reads { OnlyRead (S.seen space.old) (S.seen space.new) }
    ensures call { IsCall S.Space space.old space.new (space_fault result) }
{
    let at = child_at(&parent.node, index);
    let bounds = Bounds::of_child(&parent.node, index, parent.upper.as_ref())?;
    let node = node_at(alloc, space, at, level, &bounds)?;
    Ok((at, node))
}

// The entries of two nodes, as those of one.
fn merged(alloc: Global, first: &Node, second: &Node) -> Result<Node, NoMemory>
    ensures level { IfOk result (λ node. node.level ≡ first.now.level) }
    ensures entries { IfOk result (λ node. node.entries ≡ first.now.entries ++ second.now.entries) }
{
    let mut entries = Pairs::new(alloc);
    push_copies(&mut entries, first.entries.items())?;
    push_copies(&mut entries, second.entries.items())?;
    Ok(Node {
        level: first.level,
        entries,
    })
}
