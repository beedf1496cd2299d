//! Changing an object's size.
ghost use Rattle.std.specs.Prelude.{◌≡◌, ℕ, ◌-◌, ◌≤◌, OnOk};
ghost use Rattle.std.specs.Result.{result_err};
ghost use Rattle.sea_base.specs.Ghosts.{IsReady, IsCall};
ghost use Rattle.sea_base.specs.Space.{Store, laid};
ghost use Rattle.sea_object.specs.Answer.{resized};
ghost use Rattle.sea_data.specs.Bytes.{bytes_of};
ghost use Rattle.sea_data.specs.Calls.{Meets, Becomes, CutForm, CutFootprint};
ghost use Rattle.sea_data.specs.Steps.{Does, drop_steps};

use crate::part::{BYTES, address_of};
use crate::writing::clear_old_end;
use sea_base::{Space, SpaceFault};
use sea_object::Onode;
use std::alloc::Global;

/// Cuts an object to a size, or fills it with zeros to it. The onode is the one before. Every data
/// address from the new end to the old one is dropped, filled or not, and none of them is read.
pub fn cut<S: Space>(
    alloc: Global,
    space: &mut S,
    onode: &Onode,
    size: u32,
) -> Result<(), SpaceFault>
    requires ready { IsReady S.Space space.old }
    requires range { size ≤ 16777216 }
    ensures changed { OnOk result ((store : Store) (next : ℕ)
        → Meets store next onode.now (S.seen space.old) (S.seen space.new)
        → Becomes store next onode.now size
        (resized size (bytes_of (laid (S.seen space.old) store) onode.now.base.0 onode.now.size))
        (S.seen space.old) (S.seen space.new)) }
    ensures form { OnOk result (CutForm onode.now size (S.seen space.old) (S.seen space.new)) }
    ensures footprint { OnOk result
        (CutFootprint onode.now size (S.seen space.old) (S.seen space.new)) }
    ensures next { (S.seen space.new).next ≡ (S.seen space.old).next }
    ensures call { IsCall S.Space space.old space.new (result_err result) }
{
    clear_old_end(alloc, space, onode, size, size)?;
    let first = size.div_ceil(BYTES);
    let end = onode.size.div_ceil(BYTES);
    drop_blocks(space, onode, first, end)
}

// Leaves nothing at the data blocks from one on, before another.
fn drop_blocks<S: Space>(space: &mut S, onode: &Onode, from: u32, to: u32) -> Result<(), SpaceFault>
    requires { IsReady S.Space space.old }
    ensures done { OnOk result (Does (drop_steps onode.now.base.0 from (to - from))
        (S.seen space.old) (S.seen space.new)) }
    ensures next { (S.seen space.new).next ≡ (S.seen space.old).next }
    ensures call { IsCall S.Space space.old space.new (result_err result) }
{
    for index in from..to {
        space.drop_at(address_of(onode, index))?;
    }
    Ok(())
}
