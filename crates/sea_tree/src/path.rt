//! The path from the root of a tree to a leaf.
ghost use Rattle.std.specs.Prelude.{◌≡◌, ℕ, ◌+◌, ◌<◌, ◌≤◌, None, IsTrue, IfOk, IfSome, IfNone, IfErr, OnOk, List};
ghost use Rattle.sea_base.specs.Space.{IsKnown, OnlyRead};
ghost use Rattle.sea_tree.specs.Calls.{IsPathFault, IsWholePath};
ghost use Rattle.sea_tree.specs.Reads.{ReadsPath};
ghost use Rattle.sea_tree.specs.Path.{IsKnownPath};
ghost use Rattle.sea_base.specs.Ghosts.{IsReady, IsCall};
ghost use Rattle.sea_tree.specs.Calls.{space_fault};

use crate::TreeFault;
use crate::place::{Bounds, child_at, index_towards, node_at, root_at};
use sea_base::{Key, Laddr, Pairs, Space};
use sea_node::Node;
use smallvec::SmallVec;
use std::alloc::Global;
use std::default::MadeWith;

/// A node above the leaves on the path to a key.
#[derive(Drop)]
pub(crate) struct Step {
    /// Its address.
    pub at: Laddr,
    /// The node.
    pub node: Node,
    /// The index of the entry whose child is next on the path.
    pub index: usize,
    /// Its own upper bound.
    pub upper: Option<Key>,
}

impl MadeWith<Global> for Step {
    fn made_with(alloc: Global) -> Self {
        Step {
            at: Laddr(0),
            node: Node {
                level: 0,
                entries: Pairs::new(alloc),
            },
            index: 0,
            upper: None,
        }
    }
}

/// The path from a root down to a node, by the last separators that are not above a key.
#[derive(Drop)]
pub(crate) struct Path {
    /// The nodes above, the root first.
    pub steps: SmallVec<Step, 8>,
    /// The address of the last node.
    pub at: Laddr,
    /// The last node, which is a leaf at the path's end.
    pub leaf: Node,
    /// Its bounds.
    pub bounds: Bounds,
}

/// The path from a root to the leaf that a key leads to. There is none in an empty tree.
pub(crate) fn path_to<S: Space>(
    alloc: Global,
    space: &mut S,
    root: Laddr,
    key: &Key,
) -> Result<Option<Path>, TreeFault>
    requires { IsReady S.Space space.old }
    ensures path { IfOk result
        (λ found. IfSome found (IsKnownPath (S.seen space.new) root.0 key.now)) }
    ensures none { IfOk result (λ found. IfNone found ((S.seen space.new).view root.0 ≡ None)) }
    ensures known { OnOk result (IsKnown (S.seen space.new) root.0) }
    ensures whole { OnOk result (IsWholePath root.0 key.now (S.seen space.old) (S.seen space.new)) }
    ensures fault { IfErr result
        (IsPathFault root.0 key.now (S.seen space.old) (S.seen space.new)) }
    ensures within { ReadsPath root.0 key.now (S.seen space.old) (S.seen space.new) }
    ensures reads { OnlyRead (S.seen space.old) (S.seen space.new) }
    ensures call { IsCall S.Space space.old space.new (space_fault result) }
{
    prove!(!key.bytes().is_empty());
    let Some(mut node) = root_at(alloc, space, root)? else {
        return Ok(None);
    };
    let mut at = root;
    let mut bounds = Bounds::root(alloc)?;
    let mut steps = SmallVec::new(alloc);
    'down: while node.level > 0 {
        let index = index_towards(&node, key);
        let child = child_at(&node, index);
        let below = Bounds::of_child(&node, index, bounds.upper.as_ref())?;
        let next = node_at(alloc, space, child, node.level - 1, &below)?;
        let Bounds { upper, .. } = bounds;
        steps.push(Step {
            at,
            node,
            index,
            upper,
        })?;
        at = child;
        node = next;
        bounds = below;
    }
    Ok(Some(Path {
        steps,
        at,
        leaf: node,
        bounds,
    }))
}
