//! Making an object.
ghost use Rattle.std.specs.Prelude.{◌≡◌, ◌+◌, ◌<◌, ◌≤◌, ◌^◌, IfOk, IfErr, OnOk};
ghost use Rattle.sea_base.specs.Ghosts.{IsReady, IsCall};
ghost use Rattle.sea_object.specs.declared.op.Op.TheVariants.{Touch};
ghost use Rattle.sea_tree.specs.Calls.{space_fault};
ghost use Rattle.sea_ops.specs.Calls.{Does, Makes, FailsUnlessFull};

use sea_base::{Name, Space};
use sea_object::{Item, Onode};
use sea_onode::{OBJECT_ADDRESSES, find, new_onode, save};
use sea_tree::TreeFault;
use std::alloc::Global;

/// Makes an empty object where there is none.
pub fn touch<S: Space>(alloc: Global, space: &mut S, name: &Name) -> Result<Item, TreeFault>
    requires ready { IsReady S.Space space.old }
    requires room { (S.seen space.old).next + 2 ^ 20 ≤ 2 ^ 62 + 2 ^ 46 }
    ensures does { IfOk result (λ item.
        Does (Touch name.now) item (S.seen space.old) (S.seen space.new)) }
    ensures failure { IfErr result
        (FailsUnlessFull (2 ^ 25) (S.seen space.old) (S.seen space.new)) }
    ensures next { (S.seen space.new).next < (S.seen space.old).next + 2 ^ 21 }
    ensures call { IsCall S.Space space.old space.new (space_fault result) }
{
    match find(space, name)? {
        Some(_) => Ok(Item::Unit),
        None => {
            make(alloc, space, name)?;
            Ok(Item::Unit)
        }
    }
}

// Makes an empty object under a name that has none, at the next addresses.
fn make<S: Space>(alloc: Global, space: &mut S, name: &Name) -> Result<Onode, TreeFault>
    requires ready { IsReady S.Space space.old }
    requires room { (S.seen space.old).next + 2 ^ 20 ≤ 2 ^ 62 + 2 ^ 46 }
    ensures made { OnOk result (Makes name.now (S.seen space.old) (S.seen space.new)) }
    ensures failure { IfErr result
        (FailsUnlessFull (2 ^ 25) (S.seen space.old) (S.seen space.new)) }
    ensures next { (S.seen space.new).next < (S.seen space.old).next + 2 ^ 21 }
    ensures call { IsCall S.Space space.old space.new (space_fault result) }
{
    let base = space.alloc(OBJECT_ADDRESSES)?;
    let onode = new_onode(base);
    save(alloc, space, name, &onode)?;
    Ok(onode)
}
