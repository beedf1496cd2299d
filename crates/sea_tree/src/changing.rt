//! Putting a pair into a tree, and taking one out.
ghost use Rattle.std.specs.Prelude.{◌≡◌, ◌≤◌, ◌<◌, ◌+◌, ◌^◌, [], ◌∷◌, Some, None, IfOk, IfErr, OnOk, IsTrue, IfSome, MatchOption, length, reverse, ◌⊎◌};
ghost use Rattle.std.specs.Option.{option_copied};
ghost use Rattle.std.specs.FinMap as map;
ghost use Rattle.sea_base.specs.Space.{Store, OnlyRead};
ghost use Rattle.sea_node.specs.Entries.{Values};
ghost use Rattle.sea_node.specs.Node.{node_bytes};
ghost use Rattle.sea_tree.specs.Does.{Does};
ghost use Rattle.sea_tree.specs.Plan.{plan_changes, plan_fills, CanSplice};
ghost use Rattle.sea_tree.specs.Reads.{ReadsNear};
ghost use Rattle.sea_tree.specs.declared.edit.Edit.TheVariants.{Pair};
ghost use Rattle.sea_tree.specs.Lookup.{HoldsLeaf};
ghost use Rattle.sea_tree.specs.Path.{IsKnownPath};
ghost use Rattle.sea_tree.specs.Form.{Rises, HasForm, HasFirst, Plans};
ghost use Rattle.sea_tree.specs.Changing.{IsPlanned, TouchesOwn};
ghost use Rattle.sea_tree.specs.Calls.{Meets, Becomes, ChangeFootprint, ChangeFailure, IsChangeFault, IsPlanFault, IsUnchanged};
ghost use Rattle.sea_base.specs.Ghosts.{IsReady, IsCall};
ghost use Rattle.sea_tree.specs.Calls.{space_fault};

use crate::TreeFault;
use crate::edit::Edit;
use crate::leaf::Leaf;
use crate::lookup::look_up;
use crate::path::{Path, path_to};
use crate::plan::{CHANGED_BLOCKS, Plan, perform, plan_node};
use crate::rebalancing::rebalance;
use crate::rooting::rebalance_root;
use sea_base::{Data, Duplicate, Key, Laddr, NoMemory, Pairs, Space};
use sea_node::{Node, VALUE_BYTES};
use std::alloc::Global;

/// Puts a value under a key, and answers the one that was there.
pub fn put<S: Space>(
    alloc: Global,
    space: &mut S,
    root: Laddr,
    key: &Key,
    value: &Data,
) -> Result<Option<Data>, TreeFault>
    requires ready { IsReady S.Space space.old }
    requires room { (S.seen space.old).next < 2 ^ 62 + 2 ^ 46 }
    requires value { length value.now ≤ VALUE_BYTES }
    ensures changed { IfOk result (λ found. (store : Store) (content : Values)
        → Meets store root.0 (S.seen space.old) (S.seen space.new) content
        → (found ≡ map.get content key.now)
        × Becomes store root.0 (S.seen space.old) (S.seen space.new)
        (map.insert content key.now value.now)) }
    ensures form { OnOk result (
        HasForm root.0 key.now (Some value.now) (S.seen space.old) (S.seen space.new)
        ⊎ HasFirst root.0 key.now value.now (S.seen space.old) (S.seen space.new)) }
    ensures footprint { OnOk result
        (ChangeFootprint root.0 key.now (S.seen space.old) (S.seen space.new)) }
    ensures failure { IfErr result
        (ChangeFailure root.0 key.now (S.seen space.old) (S.seen space.new)) }
    ensures next { ((S.seen space.old).next ≤ (S.seen space.new).next)
        × ((S.seen space.new).next < (S.seen space.old).next + 2 ^ 20) }
    ensures call { IsCall S.Space space.old space.new (space_fault result) }
{
    // The bytes of a key are a name.
    prove!(!key.bytes().is_empty());
    let Some(leaf) = look_up(space, root, key)? else {
        let plan = planted(alloc, root, key, value)?;
        perform(space, plan)?;
        return Ok(None);
    };
    let plan = planned(alloc, space, root, &leaf, key, Some(value))?;
    perform(space, plan)?;
    let Leaf { value: old, .. } = leaf;
    Ok(old)
}

/// Takes a key out, and answers the value that was there.
pub fn del<S: Space>(
    alloc: Global,
    space: &mut S,
    root: Laddr,
    key: &Key,
) -> Result<Option<Data>, TreeFault>
    requires ready { IsReady S.Space space.old }
    requires room { (S.seen space.old).next < 2 ^ 62 + 2 ^ 46 }
    ensures changed { IfOk result (λ found. (store : Store) (content : Values)
        → Meets store root.0 (S.seen space.old) (S.seen space.new) content
        → (found ≡ map.get content key.now)
        × Becomes store root.0 (S.seen space.old) (S.seen space.new)
        (map.remove content key.now)) }
    ensures form { IfOk result (λ found. MatchOption found
        (OnlyRead (S.seen space.old) (S.seen space.new))
        (λ value. HasForm root.0 key.now None (S.seen space.old) (S.seen space.new))) }
    ensures footprint { OnOk result
        (ChangeFootprint root.0 key.now (S.seen space.old) (S.seen space.new)) }
    ensures failure { IfErr result
        (ChangeFailure root.0 key.now (S.seen space.old) (S.seen space.new)) }
    ensures next { ((S.seen space.old).next ≤ (S.seen space.new).next)
        × ((S.seen space.new).next < (S.seen space.old).next + 2 ^ 20) }
    ensures call { IsCall S.Space space.old space.new (space_fault result) }
{
    let Some(leaf) = look_up(space, root, key)? else {
        return Ok(None);
    };
    if leaf.value.is_none() {
        return Ok(None);
    }
    let plan = planned(alloc, space, root, &leaf, key, None)?;
    perform(space, plan)?;
    let Leaf { value: old, .. } = leaf;
    Ok(old)
}

// What is to be written for the first pair of a tree.
fn planted(alloc: Global, root: Laddr, key: &Key, value: &Data) -> Result<Plan, NoMemory>
    requires { length value.now ≤ VALUE_BYTES }
    ensures planned { IfOk result (λ plan.
        plan_changes plan ≡ (root.0, Some (node_bytes 0 ((key.now, value.now) ∷ []))) ∷ []) }
    ensures few { IfOk result (λ plan. plan_fills plan ≡ 1) }
    ensures whole { IfOk result (λ plan. plan.splice ≡ None) }
{
    let mut entries = Pairs::new(alloc);
    entries.push((key.copy()?, value.copy()?))?;
    let leaf = Node { level: 0, entries };
    let mut plan = Plan::new(alloc);
    plan_node(alloc, &mut plan.writes, root, &leaf)?;
    Ok(plan)
}

// What is to be written where a pair of the leaf that its key leads to comes, goes or has another
// value. The path is read as nodes only where the leaf has to be rebalanced.
fn planned<S: Space>(
    alloc: Global,
    space: &mut S,
    root: Laddr,
    leaf: &Leaf,
    key: &Key,
    value: Option<&Data>,
) -> Result<Plan, TreeFault>
    requires ready { IsReady S.Space space.old }
    requires room { (S.seen space.old).next < 2 ^ 62 + 2 ^ 46 }
    requires value { IfSome (option_copied value) (λ v. length v ≤ VALUE_BYTES) }
    requires leaf { HoldsLeaf (S.seen space.old) root.0 key.now leaf.now }
    ensures plans { IfOk result (Plans root.0 key.now (option_copied value.entry)
        (S.seen space.old) (S.seen space.new)) }
    ensures few { IfOk result (λ plan. plan_fills plan ≤ CHANGED_BLOCKS) }
    ensures spliced { IfOk result (CanSplice (S.seen space.new)) }
    ensures fault { IfErr result
        (IsChangeFault root.0 key.now (S.seen space.old) (S.seen space.new)) }
    ensures unchanged { IfErr result (IsUnchanged (S.seen space.old) (S.seen space.new)) }
    ensures rises { (S.seen space.old).next ≤ (S.seen space.new).next }
    ensures next { (S.seen space.new).next ≤ (S.seen space.old).next + 9 }
    ensures call { IsCall S.Space space.old space.new (space_fault result) }
{
    // The bytes of a key are a name.
    prove!(!key.bytes().is_empty());
    if let Some(plan) = leaf.kept(alloc, key, value)? {
        return Ok(plan);
    }
    let Some(path) = path_to(alloc, space, root, key)? else {
        unreachable!();
    };
    let plan = mended(alloc, space, root, path, key, value)?;
    Ok(plan)
}

// What is to be written where a pair of a leaf comes, goes or has another value: from the leaf up,
// as far as something is left to do.
fn mended<S: Space>(
    alloc: Global,
    space: &mut S,
    root: Laddr,
    path: Path,
    key: &Key,
    value: Option<&Data>,
) -> Result<Plan, TreeFault>
    requires ready { IsReady S.Space space.old }
    requires room { (S.seen space.old).next < 2 ^ 62 + 2 ^ 46 }
    requires value { IfSome (option_copied value) (λ v. length v ≤ VALUE_BYTES) }
    requires path { IsKnownPath (S.seen space.old) root.0 key.now path }
    ensures planned { IfOk result (λ plan.
        IsPlanned root.0 key.now (option_copied value.entry) (S.seen space.old) (S.seen space.new)
        (plan_changes plan)) }
    ensures form { IfOk result (λ plan.
        Rises (reverse path.steps.items) 0 path.at.0 path.leaf.entries
        (Pair key.now (option_copied value.entry)) (S.seen space.old) (S.seen space.new) []
        (plan_changes plan) plan.splice) }
    ensures own { IfOk result (λ plan.
        TouchesOwn root.0 (S.seen space.old) (S.seen space.new) (plan_changes plan)) }
    ensures few { IfOk result (λ plan. plan_fills plan ≤ CHANGED_BLOCKS) }
    ensures spliced { IfOk result (CanSplice (S.seen space.new)) }
    ensures fault { IfErr result (IsPlanFault root.0 (S.seen space.old) (S.seen space.new)) }
    ensures near { OnOk result (ReadsNear root.0 key.now (S.seen space.old) (S.seen space.new)) }
    ensures reads { OnOk result (Does [] (S.seen space.old) (S.seen space.new)) }
    ensures unchanged { IfErr result (IsUnchanged (S.seen space.old) (S.seen space.new)) }
    ensures rises { (S.seen space.old).next ≤ (S.seen space.new).next }
    ensures next { (S.seen space.new).next ≤ (S.seen space.old).next + 9 }
    ensures call { IsCall S.Space space.old space.new (space_fault result) }
{
    // The bytes of a key are a name.
    prove!(!key.bytes().is_empty());
    let value = match value {
        Some(value) => Some(value.copy()?),
        None => None,
    };
    let mut edit = Edit::Pair {
        key: key.copy()?,
        value,
    };
    let mut plan = Plan::new(alloc);
    let Path {
        mut steps,
        mut at,
        leaf: mut node,
        ..
    } = path;
    'up: while let Some(parent) = steps.pop() {
        let Some(left) = rebalance(alloc, space, &mut plan, &parent, at, &node, edit)? else {
            return Ok(plan);
        };
        edit = left;
        at = parent.at;
        node = parent.node;
    }
    rebalance_root(alloc, space, &mut plan, root, &node, edit)?;
    Ok(plan)
}
