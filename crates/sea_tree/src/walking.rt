//! Reading a whole tree, and dropping it.
ghost use Rattle.std.specs.Prelude.{◌≡◌, ◌⊎◌, ◌∷◌, ℕ, ◌≤◌, List, Some, None, IfOk, IfErr, OnOk, IsTrue, length};
ghost use Rattle.std.specs.Option.{option_copied};
ghost use Rattle.std.specs.FinMap as map;
ghost use Rattle.sea_base.specs.Space.{Store, Found, OnlyRead, laid, Agrees};
ghost use Rattle.sea_node.specs.Entries.{Values};
ghost use Rattle.sea_node.specs.Node.{IsNode};
ghost use Rattle.sea_tree.specs.Tree.{IsTree, IsNodeOf};
ghost use Rattle.sea_tree.specs.Calls.{Meets, Becomes, DropFootprint, DropFailure, IsWalkFault, IsWalked};
ghost use Rattle.sea_tree.specs.Reads.{ReadsListed, ReadsTree};
ghost use Rattle.sea_tree.specs.Walk.{addresses, Adds, IsUnderFault};
ghost use Rattle.sea_base.specs.Ghosts.{IsReady, IsCall};
ghost use Rattle.sea_tree.specs.Calls.{space_fault};

use crate::TreeFault;
use crate::place::{Bounds, child_at, node_at, root_at};
use sea_base::{Addresses, Key, Laddr, Sequence, Space};
use sea_node::Node;
use std::alloc::Global;

/// What a walk through a tree has met so far.
#[derive(Debug, Drop)]
pub(crate) struct Walk {
    /// How many pairs, by a count that stands still at its last value.
    pub pairs: u64,
    /// The addresses of the nodes.
    pub nodes: Addresses,
}

// Walks through what stands below a node, parents first.
fn walk_below<S: Space>(
    alloc: Global,
    space: &mut S,
    node: &Node,
    upper: Option<&Key>,
    walk: &mut Walk,
) -> Result<(), TreeFault>
    requires ready { IsReady S.Space space.old }
    requires node { IsNode node.now.level node.now.entries }
    ensures adds { OnOk result (Adds node.now.level node.now.entries (option_copied upper.entry)
        (S.seen space.old) (S.seen space.new) walk.old walk.new) }
    ensures fault { IfErr result (IsUnderFault node.now.level node.now.entries
        (option_copied upper.entry)
        (S.seen space.old) (S.seen space.new)) }
    ensures listed { OnOk result (ReadsListed (addresses walk.new) (S.seen space.old)
        (S.seen space.new)) }
    ensures reads { OnlyRead (S.seen space.old) (S.seen space.new) }
    ensures call { IsCall S.Space space.old space.new (space_fault result) }
{
    let entries = node.entries.items();
    if node.level == 0 {
        walk.pairs = walk.pairs.saturating_add(entries.len() as u64);
        return Ok(());
    }
    for index in 0..entries.len() {
        let at = child_at(node, index);
        let bounds = Bounds::of_child(node, index, upper)?;
        let child = node_at(alloc, space, at, node.level - 1, &bounds)?;
        walk.nodes.push(at)?;
        walk_below(alloc, space, &child, bounds.upper.as_ref(), walk)?;
    }
    Ok(())
}

// Walks through a whole tree.
fn walk_tree<S: Space>(alloc: Global, space: &mut S, root: Laddr) -> Result<Walk, TreeFault>
    requires { IsReady S.Space space.old }
    ensures walked { IfOk result (λ walk. (store : Store) → Agrees store (S.seen space.new)
        → IsWalked (laid (S.seen space.old) store) root.0 walk.pairs (addresses walk)) }
    ensures fault { IfErr result (IsWalkFault root.0 (S.seen space.old) (S.seen space.new)) }
    ensures listed { IfOk result (λ walk.
        ReadsListed (root.0 ∷ addresses walk) (S.seen space.old) (S.seen space.new)) }
    ensures reads { OnlyRead (S.seen space.old) (S.seen space.new) }
    ensures call { IsCall S.Space space.old space.new (space_fault result) }
{
    let mut walk = Walk {
        pairs: 0,
        nodes: Sequence::new(alloc),
    };
    let Some(node) = root_at(alloc, space, root)? else {
        return Ok(walk);
    };
    walk.nodes.push(root)?;
    walk_below(alloc, space, &node, None, &mut walk)?;
    Ok(walk)
}

/// What `check` counted.
#[derive(Clone, Copy, Debug, PartialEq, Eq)]
pub struct Checked {
    /// The pairs.
    pub pairs: u64,
    /// The nodes.
    pub nodes: u64,
}

/// Ok exactly where the tree is well formed, with the counts of its pairs and nodes.
pub fn check<S: Space>(alloc: Global, space: &mut S, root: Laddr) -> Result<Checked, TreeFault>
    requires { IsReady S.Space space.old }
    ensures whole { IfOk result (λ checked. (store : Store) → Agrees store (S.seen space.new)
        → (nodes : List ℕ) × (checked.nodes ≡ length nodes)
        × IsWalked (laid (S.seen space.old) store) root.0 checked.pairs nodes) }
    ensures fault { IfErr result (IsWalkFault root.0 (S.seen space.old) (S.seen space.new)) }
    ensures within { OnOk result (ReadsTree root.0 (S.seen space.old) (S.seen space.new)) }
    ensures reads { OnlyRead (S.seen space.old) (S.seen space.new) }
    ensures call { IsCall S.Space space.old space.new (space_fault result) }
{
    let walk = walk_tree(alloc, space, root)?;
    Ok(Checked {
        pairs: walk.pairs,
        nodes: walk.nodes.items().len() as u64,
    })
}

/// Leaves nothing at any address of the tree.
pub fn drop_all<S: Space>(alloc: Global, space: &mut S, root: Laddr) -> Result<(), TreeFault>
    requires { IsReady S.Space space.old }
    ensures gone { OnOk result ((store : Store) (content : Values)
        → Meets store root.0 (S.seen space.old) (S.seen space.new) content
        → Becomes store root.0 (S.seen space.old) (S.seen space.new) map.empty
        × ((at : ℕ) → (at ≡ root.0) ⊎ IsNodeOf (laid (S.seen space.old) store) root.0 at
        → laid (S.seen space.new) store at ≡ None)) }
    ensures notes { OnOk result ((at : ℕ) (found : Found)
        → (S.seen space.old).reads at ≡ Some found → (S.seen space.new).reads at ≡ Some found) }
    ensures footprint { OnOk result (DropFootprint root.0 (S.seen space.old) (S.seen space.new)) }
    ensures failure { IfErr result (DropFailure root.0 (S.seen space.old) (S.seen space.new)) }
    ensures next { (S.seen space.new).next ≡ (S.seen space.old).next }
    ensures call { IsCall S.Space space.old space.new (space_fault result) }
{
    let walk = walk_tree(alloc, space, root)?;
    for at in walk.nodes.items() {
        space.drop_at(*at)?;
    }
    Ok(())
}
