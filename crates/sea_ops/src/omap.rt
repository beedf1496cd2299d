//! Changing the keys of an object's omap.
ghost use Rattle.std.specs.Prelude.{◌≡◌, ◌+◌, ◌<◌, ◌≤◌, ◌-◌, ◌^◌, length, IfOk, IfErr};
ghost use Rattle.std.specs.List.{All};
ghost use Rattle.sea_base.specs.Ghosts.{IsReady, IsCall};
ghost use Rattle.sea_object.specs.declared.op.Op.TheVariants.{OmapSetKeys, OmapRmKeys};
ghost use Rattle.sea_tree.specs.Calls.{space_fault};
ghost use Rattle.sea_ops.specs.Calls.{Ends, FailsUnlessFull};

use crate::asking::omap_root;
use sea_base::{Name, Names, Pairs, Space};
use sea_node::VALUE_BYTES;
use sea_object::{Item, Onode, Why};
use sea_omap::{MOST_KEYS, set, unset};
use sea_onode::{find, save};
use sea_tree::TreeFault;
use std::alloc::Global;

/// How many keys an object has at most.
const MOST_OMAP_KEYS: u32 = 10_000;

/// Puts pairs into an object's omap in order, so that the last of one key stays. It is refused
/// where more than 10,000 keys would stand after all of them.
pub fn omap_set_keys<S: Space>(
    alloc: Global,
    space: &mut S,
    name: &Name,
    pairs: &Pairs,
) -> Result<Result<Item, Why>, TreeFault>
    requires ready { IsReady S.Space space.old }
    requires room { (S.seen space.old).next + 2 ^ 20 ≤ 2 ^ 62 + 2 ^ 46 }
    requires count { length pairs.now ≤ MOST_KEYS }
    requires values { All (λ pair. length pair.1 ≤ VALUE_BYTES) pairs.now }
    ensures ends { IfOk result (λ end.
        Ends (OmapSetKeys name.now pairs.now) end (S.seen space.old) (S.seen space.new)) }
    ensures failure { IfErr result
        (FailsUnlessFull (2 ^ 25 - 2 ^ 20) (S.seen space.old) (S.seen space.new)) }
    ensures next { (S.seen space.new).next < (S.seen space.old).next + 2 ^ 21 }
    ensures call { IsCall S.Space space.old space.new (space_fault result) }
{
    let Some(onode) = find(space, name)? else {
        return Ok(Err(Why::NoObject));
    };
    let added = set(alloc, space, omap_root(&onode), pairs)?;
    let keys = onode.keys.saturating_add(added);
    if keys > MOST_OMAP_KEYS {
        return Ok(Err(Why::OmapFull));
    }
    let more = Onode { keys, ..onode };
    save(alloc, space, name, &more)?;
    Ok(Ok(Item::Unit))
}

/// Takes keys out of an object's omap, those that are there.
pub fn omap_remove_keys<S: Space>(
    alloc: Global,
    space: &mut S,
    name: &Name,
    keys: &Names,
) -> Result<Result<Item, Why>, TreeFault>
    requires ready { IsReady S.Space space.old }
    requires room { (S.seen space.old).next + 2 ^ 20 ≤ 2 ^ 62 + 2 ^ 46 }
    requires count { length keys.now ≤ MOST_KEYS }
    ensures ends { IfOk result (λ end.
        Ends (OmapRmKeys name.now keys.now) end (S.seen space.old) (S.seen space.new)) }
    ensures failure { IfErr result
        (FailsUnlessFull (2 ^ 25 - 2 ^ 20) (S.seen space.old) (S.seen space.new)) }
    ensures next { (S.seen space.new).next < (S.seen space.old).next + 2 ^ 21 }
    ensures call { IsCall S.Space space.old space.new (space_fault result) }
{
    let Some(onode) = find(space, name)? else {
        return Ok(Err(Why::NoObject));
    };
    let gone = unset(alloc, space, omap_root(&onode), keys)?;
    let fewer = Onode {
        keys: onode.keys.saturating_sub(gone),
        ..onode
    };
    save(alloc, space, name, &fewer)?;
    Ok(Ok(Item::Unit))
}
