//! Removing an object.
ghost use Rattle.std.specs.Prelude.{◌≡◌, ◌+◌, ◌-◌, ◌<◌, ◌≤◌, ◌^◌, IfOk, IfErr};
ghost use Rattle.sea_base.specs.Ghosts.{IsReady, IsCall};
ghost use Rattle.sea_object.specs.declared.op.Op.TheVariants.{Remove};
ghost use Rattle.sea_tree.specs.Calls.{space_fault};
ghost use Rattle.sea_ops.specs.Calls.{Ends, FailsUnlessFull};

use crate::asking::omap_root;
use sea_base::{Name, Space};
use sea_data::cut;
use sea_object::{Item, Why};
use sea_onode::{erase, find};
use sea_tree::{TreeFault, drop_all};
use std::alloc::Global;

/// Removes an object, with its attributes, its omap and its data.
pub fn remove<S: Space>(
    alloc: Global,
    space: &mut S,
    name: &Name,
) -> Result<Result<Item, Why>, TreeFault>
    requires ready { IsReady S.Space space.old }
    requires room { (S.seen space.old).next + 2 ^ 20 ≤ 2 ^ 62 + 2 ^ 46 }
    ensures ends { IfOk result (λ end.
        Ends (Remove name.now) end (S.seen space.old) (S.seen space.new)) }
    ensures failure { IfErr result
        (FailsUnlessFull (2 ^ 25 - 2 ^ 20) (S.seen space.old) (S.seen space.new)) }
    ensures next { (S.seen space.new).next < (S.seen space.old).next + 2 ^ 21 }
    ensures call { IsCall S.Space space.old space.new (space_fault result) }
{
    let Some(onode) = find(space, name)? else {
        return Ok(Err(Why::NoObject));
    };
    drop_all(alloc, space, onode.base)?;
    drop_all(alloc, space, omap_root(&onode))?;
    cut(alloc, space, &onode, 0)?;
    erase(alloc, space, name)?;
    Ok(Ok(Item::Unit))
}
