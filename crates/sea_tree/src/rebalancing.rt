//! Rebalancing one node below the root whose entries changed: what is to be written of it, and what
//! is left to do in its parent.
ghost use Rattle.std.specs.Prelude.{◌≡◌, ◌+◌, ◌<◌, ◌≤◌, ◌++◌, ◌⊎◌, ◌^◌, [], Some, None, List, IfSome, IfOk, IfErr, OnOk, IsTrue, length};
ghost use Rattle.sea_base.specs.declared.space.SpaceFault.TheVariants.{NoMemory as OutOfMemory};
ghost use Rattle.sea_base.specs.Space.{IsKnown};
ghost use Rattle.sea_node.specs.Entries.{size};
ghost use Rattle.sea_node.specs.Node.{IsNode};
ghost use Rattle.sea_tree.specs.Tree.{Bounds as Asked, NodeAt};
ghost use Rattle.sea_tree.specs.Calls.{IsUnchanged};
ghost use Rattle.sea_tree.specs.Does.{Change, Does};
ghost use Rattle.sea_tree.specs.Plan.{changes_of, count_filled, plan_changes, plan_fills, CanSplice};
ghost use Rattle.sea_tree.specs.Mending.{after_edit, IsNearPlace};
ghost use Rattle.sea_tree.specs.Reads.{ReadsNothing};
ghost use Rattle.sea_tree.specs.Form.{IsKept, IsWrittenAs};
ghost use Rattle.sea_tree.specs.Rebalanced.{IsNearChild, SplitsInTwo, Merged, Redistributed, Rebalanced, IsRebalanceFault};
ghost use Rattle.sea_base.specs.Ghosts.{IsReady, IsCall};
ghost use Rattle.sea_tree.specs.Calls.{space_fault};
ghost use Rattle.std.specs.Result.{result_err};

use crate::TreeFault;
use crate::cut::{halves, size_of};
use crate::edit::Edit;
use crate::neighbours::Neighbours;
use crate::path::Step;
use crate::place::{LEAST_BYTES, value_of};
use crate::plan::{Plan, Writes, plan_edit, plan_gone, plan_node};
use sea_base::{Duplicate, Laddr, NoMemory, Space, SpaceFault};
use sea_node::{Node, ROOM_BYTES};
use std::alloc::Global;

/// Plans to write a node below the root with its edit, or to split it, or to merge it with a
/// neighbour, or to redistribute the entries of both. Answers what is left to do in its parent.
pub(crate) fn rebalance<S: Space>(
    alloc: Global,
    space: &mut S,
    plan: &mut Plan,
    parent: &Step,
    at: Laddr,
    node: &Node,
    edit: Edit,
) -> Result<Option<Edit>, TreeFault>
    requires ready { IsReady S.Space space.old }
    requires room { (S.seen space.old).next < 2 ^ 62 + 2 ^ 47 }
    requires parent { IsNode parent.now.node.level parent.now.node.entries }
    requires level { parent.now.node.level ≡ node.now.level + 1 }
    requires index { parent.now.index < length parent.now.node.entries }
    requires node { NodeAt (S.seen space.old).view at.0 node.now.level node.now.entries }
    requires known { IsKnown (S.seen space.old) at.0 }
    requires first { plan.old.splice ≡ None }
    requires child { IsNearChild parent.now node.now.level at.0 (after_edit edit node.now.entries) }
    ensures rebalanced { IfOk result (λ left. (changes : List Change)
        × (plan_changes plan.new ≡ changes ++ plan_changes plan.old)
        × (how : Rebalanced node.now.level at.0 (after_edit edit node.now.entries) parent.now
        (S.seen space.old) (S.seen space.new) changes left)
        × IsWrittenAs how
        (IsKept at.0 node.now.entries edit (plan_changes plan.old) plan.new.splice)
        plan.new.splice) }
    ensures few { OnOk result (plan_fills plan.new ≤ plan_fills plan.old + 2) }
    ensures spliced { OnOk result (CanSplice (S.seen space.new) plan.new) }
    ensures last { IfOk result (λ left. IfSome left (λ edit. plan.new.splice ≡ None)) }
    ensures fault { IfErr result (IsRebalanceFault node.now.level parent.now (S.seen space.old)
        (S.seen space.new)) }
    ensures reads { OnOk result (Does [] (S.seen space.old) (S.seen space.new)) }
    ensures unchanged { IfErr result (IsUnchanged (S.seen space.old) (S.seen space.new)) }
    ensures rises { (S.seen space.old).next ≤ (S.seen space.new).next }
    ensures next { (S.seen space.new).next ≤ (S.seen space.old).next + 1 }
    ensures call { IsCall S.Space space.old space.new (space_fault result) }
{
    let edited = Node {
        level: node.level,
        entries: edit.applied(alloc, node.entries.items())?,
    };
    let bytes = size_of(edited.entries.items());
    if bytes > ROOM_BYTES {
        return Ok(Some(split(alloc, space, &mut plan.writes, at, &edited)?));
    }
    if bytes < LEAST_BYTES as usize {
        let pair = Neighbours::of(alloc, space, parent, at, &edited)?;
        return Ok(merge_or_redistribute(alloc, &mut plan.writes, pair)?);
    }
    plan_edit(alloc, plan, at, node, edit, &edited)?;
    Ok(None)
}

// Plans to write the two halves of a node, the second at a fresh address, of which the parent is to
// hear.
fn split<S: Space>(
    alloc: Global,
    space: &mut S,
    writes: &mut Writes,
    at: Laddr,
    node: &Node,
) -> Result<Edit, SpaceFault>
    requires ready { IsReady S.Space space.old }
    requires room { (S.seen space.old).next < 2 ^ 62 + 2 ^ 47 }
    requires near { (bounds : Asked) × IsNearPlace node.now.level bounds node.now.entries }
    requires large { ROOM_BYTES < size node.now.entries }
    ensures split { IfOk result (λ left. (changes : List Change)
        × (changes_of writes.new ≡ changes ++ changes_of writes.old)
        × SplitsInTwo node.now.level at.0 node.now.entries (S.seen space.old)
        (S.seen space.new) changes (Some left)) }
    ensures few { OnOk result (count_filled writes.new ≡ count_filled writes.old + 2) }
    ensures memory { IfErr result (λ fault. fault ≡ OutOfMemory) }
    ensures unread { OnOk result (ReadsNothing (S.seen space.old) (S.seen space.new)) }
    ensures reads { OnOk result (Does [] (S.seen space.old) (S.seen space.new)) }
    ensures rises { (S.seen space.old).next ≤ (S.seen space.new).next }
    ensures next { (S.seen space.new).next ≤ (S.seen space.old).next + 1 }
    ensures call { IsCall S.Space space.old space.new (result_err result) }
{
    let (front, back) = halves(alloc, node)?;
    let fresh = space.alloc(1)?;
    plan_node(alloc, writes, at, &front)?;
    plan_node(alloc, writes, fresh, &back)?;
    Ok(Edit::Pair {
        key: back.entries.items()[0].0.copy()?,
        value: Some(value_of(alloc, fresh)?),
    })
}

// Plans to write two neighbours as one node, or to redistribute their entries.
fn merge_or_redistribute(
    alloc: Global,
    writes: &mut Writes,
    pair: Neighbours,
) -> Result<Option<Edit>, NoMemory>
    requires near { (bounds : Asked) × IsNearPlace pair.both.level bounds pair.both.entries }
    requires filled { LEAST_BYTES ≤ size pair.both.entries }
    ensures rebalanced { IfOk result
        (λ left. Merged pair (changes_of writes.old) (changes_of writes.new) left
        ⊎ Redistributed pair (changes_of writes.old) (changes_of writes.new) left) }
    ensures few { OnOk result (count_filled writes.new ≤ count_filled writes.old + 2) }
{
    if size_of(pair.both.entries.items()) > ROOM_BYTES {
        return redistribute(alloc, writes, pair);
    }
    plan_node(alloc, writes, pair.left, &pair.both)?;
    plan_gone(writes, pair.right)?;
    Ok(Some(Edit::Pair {
        key: pair.separator,
        value: None,
    }))
}

// Plans to write two neighbours with their entries redistributed. The parent is to hear of the
// second one's key, where it is another.
fn redistribute(
    alloc: Global,
    writes: &mut Writes,
    pair: Neighbours,
) -> Result<Option<Edit>, NoMemory>
    requires near { (bounds : Asked) × IsNearPlace pair.both.level bounds pair.both.entries }
    requires large { ROOM_BYTES < size pair.both.entries }
    ensures cut { IfOk result (Redistributed pair (changes_of writes.old) (changes_of writes.new)) }
    ensures few { OnOk result (count_filled writes.new ≡ count_filled writes.old + 2) }
{
    let (front, back) = halves(alloc, &pair.both)?;
    plan_node(alloc, writes, pair.left, &front)?;
    plan_node(alloc, writes, pair.right, &back)?;
    let first = &back.entries.items()[0].0;
    if *first == pair.separator {
        return Ok(None);
    }
    Ok(Some(Edit::Moved {
        from: pair.separator,
        to: first.copy()?,
    }))
}
