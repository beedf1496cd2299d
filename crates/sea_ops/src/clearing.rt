//! Emptying one of the trees of an object.
ghost use Rattle.std.specs.Prelude.{◌≡◌, ◌+◌, ◌-◌, ◌<◌, ◌≤◌, ◌^◌, IfOk, IfErr};
ghost use Rattle.sea_base.specs.Ghosts.{IsReady, IsCall};
ghost use Rattle.sea_object.specs.declared.op.Op.TheVariants.{OmapClear, RmAttrs};
ghost use Rattle.sea_tree.specs.Calls.{space_fault};
ghost use Rattle.sea_ops.specs.Calls.{Ends, FailsUnlessFull};

use crate::asking::omap_root;
use sea_base::{Name, Space};
use sea_object::{Item, Onode, Why};
use sea_onode::{find, save};
use sea_tree::{TreeFault, drop_all};
use std::alloc::Global;

/// Takes all keys out of an object's omap.
pub fn omap_clear<S: Space>(
    alloc: Global,
    space: &mut S,
    name: &Name,
) -> Result<Result<Item, Why>, TreeFault>
    requires ready { IsReady S.Space space.old }
    requires room { (S.seen space.old).next + 2 ^ 20 ≤ 2 ^ 62 + 2 ^ 46 }
    ensures ends { IfOk result (λ end.
        Ends (OmapClear name.now) end (S.seen space.old) (S.seen space.new)) }
    ensures failure { IfErr result
        (FailsUnlessFull (2 ^ 25 - 2 ^ 20) (S.seen space.old) (S.seen space.new)) }
    ensures next { (S.seen space.new).next < (S.seen space.old).next + 2 ^ 21 }
    ensures call { IsCall S.Space space.old space.new (space_fault result) }
{
    let Some(onode) = find(space, name)? else {
        return Ok(Err(Why::NoObject));
    };
    drop_all(alloc, space, omap_root(&onode))?;
    let cleared = Onode { keys: 0, ..onode };
    save(alloc, space, name, &cleared)?;
    Ok(Ok(Item::Unit))
}

/// Takes all attributes from an object.
pub fn remove_attrs<S: Space>(
    alloc: Global,
    space: &mut S,
    name: &Name,
) -> Result<Result<Item, Why>, TreeFault>
    requires ready { IsReady S.Space space.old }
    requires room { (S.seen space.old).next + 2 ^ 20 ≤ 2 ^ 62 + 2 ^ 46 }
    ensures ends { IfOk result (λ end.
        Ends (RmAttrs name.now) end (S.seen space.old) (S.seen space.new)) }
    ensures failure { IfErr result
        (FailsUnlessFull (2 ^ 25 - 2 ^ 20) (S.seen space.old) (S.seen space.new)) }
    ensures next { (S.seen space.new).next < (S.seen space.old).next + 2 ^ 21 }
    ensures call { IsCall S.Space space.old space.new (space_fault result) }
{
    let Some(onode) = find(space, name)? else {
        return Ok(Err(Why::NoObject));
    };
    drop_all(alloc, space, onode.base)?;
    let cleared = Onode { attrs: 0, ..onode };
    save(alloc, space, name, &cleared)?;
    Ok(Ok(Item::Unit))
}
