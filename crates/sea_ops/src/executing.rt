//! Doing one operation of any kind.
ghost use Rattle.std.specs.Prelude.{◌≡◌, ◌+◌, ◌-◌, ◌<◌, ◌≤◌, ◌^◌, true, false, IfOk, IfErr};
ghost use Rattle.sea_base.specs.Ghosts.{IsReady, IsCall};
ghost use Rattle.sea_base.specs.Space.{OnlyRead};
ghost use Rattle.sea_object.specs.Op.{IsWithinLimits, key_weight};
ghost use Rattle.sea_object.specs.Op.{changes as changes_some};
ghost use Rattle.sea_tree.specs.Calls.{space_fault};
ghost use Rattle.sea_ops.specs.Calls.{Does, Ends, Fails, FailsUnlessFull};
ghost use Rattle.sea_ops.specs.Executing.{IsFault, fault_of_space, settled_end, done_end};

use crate::asking::{get_attr, get_attrs, list, omap_get, omap_list, read, stat};
use crate::attributes::{remove_attr, set_attr};
use crate::clearing::{omap_clear, remove_attrs};
use crate::fault::OpFault;
use crate::key_range::omap_remove_key_range;
use crate::making::touch;
use crate::omap::{omap_remove_keys, omap_set_keys};
use crate::removing::remove;
use crate::writing::{truncate, write, zero};
use sea_base::Space;
use sea_object::{Item, Op, Why};
use sea_omap::MOST_KEYS;
use sea_tree::TreeFault;
use std::alloc::Global;

/// Does one operation: it is done, with this item, or was refused, or failed.
pub fn exec<S: Space>(alloc: Global, space: &mut S, op: &Op) -> Result<Item, OpFault>
    requires ready { IsReady S.Space space.old }
    requires room { (S.seen space.old).next + 2 ^ 20 ≤ 2 ^ 62 + 2 ^ 46 }
    requires limits { IsWithinLimits op.now × (key_weight op.now ≤ MOST_KEYS) }
    ensures does { IfOk result (λ item.
        Does op.now item (S.seen space.old) (S.seen space.new)) }
    ensures fault { IfErr result (IsFault op.now (S.seen space.old) (S.seen space.new)) }
    ensures asks { changes_some op.now ≡ false → OnlyRead (S.seen space.old) (S.seen space.new) }
    ensures next { (S.seen space.new).next < (S.seen space.old).next + 2 ^ 21 }
    ensures call { IsCall S.Space space.old space.new (fault_of_space result) }
{
    if op.kind().changes() {
        settled(change(alloc, space, op)?)
    } else {
        let item = ask(alloc, space, op)?;
        Ok(item)
    }
}

// The end of an operation, with a refusal as a fault.
fn settled(end: Result<Item, Why>) -> Result<Item, OpFault>
    ensures { result ≡ settled_end end }
{
    match end {
        Ok(item) => Ok(item),
        Err(why) => Err(OpFault::Refused(why)),
    }
}

// Does an operation that changes something.
fn change<S: Space>(alloc: Global, space: &mut S, op: &Op) -> Result<Result<Item, Why>, TreeFault>
    requires ready { IsReady S.Space space.old }
    requires room { (S.seen space.old).next + 2 ^ 20 ≤ 2 ^ 62 + 2 ^ 46 }
    requires limits { IsWithinLimits op.now × (key_weight op.now ≤ MOST_KEYS) }
    requires changes { changes_some op.now ≡ true }
    ensures ends { IfOk result (λ end.
        Ends op.now end (S.seen space.old) (S.seen space.new)) }
    ensures failure { IfErr result
        (FailsUnlessFull (2 ^ 25 - 2 ^ 20) (S.seen space.old) (S.seen space.new)) }
    ensures next { (S.seen space.new).next < (S.seen space.old).next + 2 ^ 21 }
    ensures call { IsCall S.Space space.old space.new (space_fault result) }
{
    match op {
        Op::Touch { name } => done(touch(alloc, space, name)),
        Op::Write {
            name,
            offset,
            bytes,
        } => done(write(alloc, space, name, *offset, bytes)),
        Op::Zero {
            name,
            offset,
            length,
        } => done(zero(alloc, space, name, *offset, *length)),
        Op::Truncate { name, size } => truncate(alloc, space, name, *size),
        Op::Remove { name } => remove(alloc, space, name),
        Op::SetAttr { name, key, value } => set_attr(alloc, space, name, key, value),
        Op::RmAttr { name, key } => remove_attr(alloc, space, name, key),
        Op::RmAttrs { name } => remove_attrs(alloc, space, name),
        Op::OmapSetKeys { name, pairs } => omap_set_keys(alloc, space, name, pairs),
        Op::OmapRmKeys { name, keys } => omap_remove_keys(alloc, space, name, keys),
        Op::OmapRmKeyRange {
            name,
            from,
            to,
            bound,
        } => omap_remove_key_range(alloc, space, name, from, to, *bound),
        Op::OmapClear { name } => omap_clear(alloc, space, name),
        _ => unreachable!(),
    }
}

// The end of an operation that is never refused.
fn done(end: Result<Item, TreeFault>) -> Result<Result<Item, Why>, TreeFault>
    ensures { result ≡ done_end end }
{
    match end {
        Ok(item) => Ok(Ok(item)),
        Err(fault) => Err(fault),
    }
}

// Does an operation that only asks.
fn ask<S: Space>(alloc: Global, space: &mut S, op: &Op) -> Result<Item, TreeFault>
    requires ready { IsReady S.Space space.old }
    requires limits { IsWithinLimits op.now }
    requires asks { changes_some op.now ≡ false }
    ensures does { IfOk result (λ item.
        Does op.now item (S.seen space.old) (S.seen space.new)) }
    ensures failure { IfErr result (Fails (S.seen space.old) (S.seen space.new)) }
    ensures reads { OnlyRead (S.seen space.old) (S.seen space.new) }
    ensures call { IsCall S.Space space.old space.new (space_fault result) }
{
    match op {
        Op::Read {
            name,
            offset,
            length,
        } => read(alloc, space, name, *offset, *length),
        Op::Stat { name } => stat(space, name),
        Op::GetAttr { name, key } => get_attr(space, name, key),
        Op::GetAttrs { name } => get_attrs(alloc, space, name),
        Op::OmapGet { name, key } => omap_get(space, name, key),
        Op::OmapList { name, limit, after } => {
            omap_list(alloc, space, name, *limit, after.as_ref())
        }
        Op::List { limit, after } => list(alloc, space, *limit, after.as_ref()),
        _ => unreachable!(),
    }
}
