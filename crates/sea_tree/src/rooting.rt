//! Rebalancing the root of a tree whose entries changed: what is to be written of it.
ghost use Rattle.std.specs.Prelude.{◌≡◌, ◌+◌, ◌<◌, ◌≤◌, ◌++◌, ◌⊎◌, ◌^◌, ℕ, true, [], ◌∷◌, None, List, IfOk, IfErr, OnOk, IsTrue, length};
ghost use Rattle.std.specs.Option.{option_copied};
ghost use Rattle.sea_base.specs.declared.space.SpaceFault.TheVariants.{NoMemory as OutOfMemory};
ghost use Rattle.sea_base.specs.Space.{Store, Seen, IsKnown};
ghost use Rattle.sea_node.specs.Entries.{Entry, size};
ghost use Rattle.sea_tree.specs.Tree.{root_bounds, IsAddress};
ghost use Rattle.sea_tree.specs.Breaks.{HasNode};
ghost use Rattle.sea_tree.specs.Does.{Change, Does, overlaid, is_among};
ghost use Rattle.sea_tree.specs.Plan.{change_of, changes_of, count_filled, plan_changes, plan_fills, CanSplice};
ghost use Rattle.sea_tree.specs.Mending.{after_edit, IsNearPlace};
ghost use Rattle.sea_tree.specs.Calls.{IsRootRebalanceFault, IsUnchanged};
ghost use Rattle.sea_tree.specs.Reads.{ReadsNothing};
ghost use Rattle.sea_tree.specs.Form.{IsKept, IsWrittenAs};
ghost use Rattle.sea_tree.specs.Changing.{root_entries, RootSplits, RootCollapses, RootRebalanced};
ghost use Rattle.sea_base.specs.Ghosts.{IsReady, IsCall};
ghost use Rattle.sea_tree.specs.Calls.{space_fault};
ghost use Rattle.std.specs.Result.{result_err};

use crate::TreeFault;
use crate::cut::{halves, size_of};
use crate::edit::Edit;
use crate::place::{Bounds, SEPARATOR_BYTES, address_of, value_of};
use crate::plan::{Plan, Write, Writes, plan_edit, plan_gone, plan_node};
use sea_base::{Block, Duplicate, Laddr, NoMemory, Pairs, Space, SpaceFault};
use sea_node::{Node, ROOM_BYTES};
use std::alloc::Global;

// The highest level that a node has.
const TOP_LEVEL: u32 = 7;

/// Plans to write the root with its edit, or to raise the tree over two fresh nodes, or to lower it
/// to its one child, or to leave nothing of it.
pub(crate) fn rebalance_root<S: Space>(
    alloc: Global,
    space: &mut S,
    plan: &mut Plan,
    root: Laddr,
    node: &Node,
    edit: Edit,
) -> Result<(), TreeFault>
    requires ready { IsReady S.Space space.old }
    requires room { (S.seen space.old).next < 2 ^ 62 + 2 ^ 47 }
    requires known { IsKnown (S.seen space.old) root.0 }
    requires node { HasNode
        (S.seen space.old).view node.now.level root.0 root_bounds node.now.entries }
    requires first { plan.old.splice ≡ None }
    requires near { IsNearPlace node.now.level root_bounds (after_edit edit node.now.entries) }
    requires grown { 1 ≤ node.now.level → size (after_edit edit node.now.entries)
        ≤ size node.now.entries + SEPARATOR_BYTES }
    requires alone { (only : Entry) (child : ℕ) → 1 ≤ node.now.level
        → after_edit edit node.now.entries ≡ only ∷ [] → IsAddress only.1 child
        → is_among (plan_changes plan.old) child ≡ true }
    ensures rebalanced { OnOk result ((changes : List Change)
        × (plan_changes plan.new ≡ changes ++ plan_changes plan.old)
        × (how : RootRebalanced node.now.level root.0 (after_edit edit node.now.entries)
        (S.seen space.old) (S.seen space.new) (plan_changes plan.old) changes)
        × IsWrittenAs how
        (IsKept root.0 node.now.entries edit (plan_changes plan.old) plan.new.splice)
        plan.new.splice) }
    ensures few { OnOk result (plan_fills plan.new ≤ plan_fills plan.old + 3) }
    ensures spliced { OnOk result (CanSplice (S.seen space.new) plan.new) }
    ensures fault { IfErr result
        (IsRootRebalanceFault root.0 (S.seen space.old) (S.seen space.new)) }
    ensures unread { OnOk result (ReadsNothing (S.seen space.old) (S.seen space.new)) }
    ensures reads { OnOk result (Does [] (S.seen space.old) (S.seen space.new)) }
    ensures unchanged { IfErr result (IsUnchanged (S.seen space.old) (S.seen space.new)) }
    ensures rises { (S.seen space.old).next ≤ (S.seen space.new).next }
    ensures next { (S.seen space.new).next ≤ (S.seen space.old).next + 2 }
    ensures call { IsCall S.Space space.old space.new (space_fault result) }
{
    let edited = Node {
        level: node.level,
        entries: edit.applied(alloc, node.entries.items())?,
    };
    let entries = edited.entries.items();
    if size_of(entries) > ROOM_BYTES {
        if edited.level == TOP_LEVEL {
            return Err(TreeFault::Broken { at: root });
        }
        return Ok(split_root(alloc, space, &mut plan.writes, root, &edited)?);
    }
    if entries.is_empty() {
        return Ok(plan_gone(&mut plan.writes, root)?);
    }
    if edited.level > 0 && entries.len() == 1 {
        return Ok(collapse_root(&mut plan.writes, root, &edited)?);
    }
    Ok(plan_edit(alloc, plan, root, node, edit, &edited)?)
}

// Plans to raise the tree: the two halves of the root go to fresh addresses, and the root leads to
// them.
fn split_root<S: Space>(
    alloc: Global,
    space: &mut S,
    writes: &mut Writes,
    root: Laddr,
    node: &Node,
) -> Result<(), SpaceFault>
    requires ready { IsReady S.Space space.old }
    requires room { (S.seen space.old).next < 2 ^ 62 + 2 ^ 47 }
    requires near { IsNearPlace node.now.level root_bounds node.now.entries }
    requires large { ROOM_BYTES < size node.now.entries }
    requires low { node.now.level < TOP_LEVEL }
    ensures split { OnOk result ((changes : List Change)
        × (changes_of writes.new ≡ changes ++ changes_of writes.old)
        × RootSplits node.now.level root.0 node.now.entries (S.seen space.old)
        (S.seen space.new) changes) }
    ensures few { OnOk result (count_filled writes.new ≡ count_filled writes.old + 3) }
    ensures memory { IfErr result (λ fault. fault ≡ OutOfMemory) }
    ensures unread { OnOk result (ReadsNothing (S.seen space.old) (S.seen space.new)) }
    ensures reads { OnOk result (Does [] (S.seen space.old) (S.seen space.new)) }
    ensures rises { (S.seen space.old).next ≤ (S.seen space.new).next }
    ensures next { (S.seen space.new).next ≤ (S.seen space.old).next + 2 }
    ensures call { IsCall S.Space space.old space.new (result_err result) }
{
    let (front, back) = halves(alloc, node)?;
    let left = space.alloc(2)?;
    let right = Laddr(left.0 + 1);
    plan_node(alloc, writes, left, &front)?;
    plan_node(alloc, writes, right, &back)?;
    let over = Node {
        level: node.level + 1,
        entries: entries_over(alloc, left, right, &back)?,
    };
    Ok(plan_node(alloc, writes, root, &over)?)
}

// The entries of a root over two nodes.
fn entries_over(alloc: Global, left: Laddr, right: Laddr, back: &Node) -> Result<Pairs, NoMemory>
    requires some { 1 ≤ length back.now.entries }
    requires next { right.0 ≡ left.0 + 1 }
    ensures { IfOk result (λ entries. entries ≡ root_entries left.0 back.now.entries) }
{
    let Bounds { lower, .. } = Bounds::root(alloc)?;
    let separator = back.entries.items()[0].0.copy()?;
    let mut entries = Pairs::new(alloc);
    entries.push((lower, value_of(alloc, left)?))?;
    entries.push((separator, value_of(alloc, right)?))?;
    Ok(entries)
}

// Plans to lower the tree: the root takes what is planned to stand at its one child.
fn collapse_root(writes: &mut Writes, root: Laddr, node: &Node) -> Result<(), NoMemory>
    requires near { IsNearPlace node.now.level root_bounds node.now.entries }
    requires above { 1 ≤ node.now.level }
    requires one { length node.now.entries ≡ 1 }
    requires alone { (only : Entry) (child : ℕ) → node.now.entries ≡ only ∷ []
        → IsAddress only.1 child → is_among (changes_of writes.old) child ≡ true }
    ensures collapsed { OnOk result ((seen : Seen) → (changes : List Change)
        × (changes_of writes.new ≡ changes ++ changes_of writes.old)
        × RootCollapses node.now.level root.0 node.now.entries seen seen
        (changes_of writes.old) changes) }
    ensures few { OnOk result (count_filled writes.new ≤ count_filled writes.old + 1) }
{
    let child = address_of(&node.entries.items()[0].1);
    match planned(writes, child)? {
        Some(block) => writes.push(Write::Whole { at: root, block })?,
        None => plan_gone(writes, root)?,
    }
    plan_gone(writes, child)
}

// What is planned to stand at an address where something is planned.
fn planned(writes: &Writes, at: Laddr) -> Result<Option<Block>, NoMemory>
    requires { is_among (changes_of writes.now) at.0 ≡ true }
    ensures { IfOk result (λ block. (store : Store)
        → block ≡ overlaid (changes_of writes.now) store at.0) }
{
    for write in writes.items().iter().rev() {
        let (written, block) = left_by(write);
        if written == at {
            return Ok(match block {
                Some(block) => Some(block.share()?),
                None => None,
            });
        }
    }
    Ok(None)
}

// The address of a write, and the block that it leaves there.
fn left_by(write: &Write) -> (Laddr, Option<&Block>)
    ensures { (result.0.0, option_copied result.1) ≡ change_of write.now }
{
    match write {
        Write::Whole { at, block } => (*at, Some(block)),
        Write::Gone { at } => (*at, None),
    }
}
