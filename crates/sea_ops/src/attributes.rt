//! Changing the attributes of an object.
ghost use Rattle.std.specs.Prelude.{◌≡◌, ◌+◌, ◌-◌, ◌<◌, ◌≤◌, ◌%◌, ◌^◌, ◌||◌, nat_lt, cond, length, is_some, IfOk, IfErr};
ghost use Rattle.std.specs.FinMap as map;
ghost use Rattle.sea_base.specs.Ghosts.{IsReady, IsCall};
ghost use Rattle.sea_base.specs.Space.{Store, OnlyRead};
ghost use Rattle.sea_node.specs.Entries.{Values};
ghost use Rattle.sea_object.specs.declared.op.Op.TheVariants.{SetAttr, RmAttr};
ghost use Rattle.sea_tree.specs.Calls.{Meets, IsPathFault, space_fault};
ghost use Rattle.sea_ops.specs.Calls.{Ends, FailsUnlessFull};

use crate::asking::MOST_ATTRIBUTES;
use sea_base::{Data, Key, Name, Space};
use sea_node::VALUE_BYTES;
use sea_object::{Item, Onode, Why};
use sea_onode::{find, save};
use sea_tree::{TreeFault, del, get, put};
use std::alloc::Global;

/// Takes an attribute from an object, if it has it.
pub fn remove_attr<S: Space>(
    alloc: Global,
    space: &mut S,
    name: &Name,
    key: &Key,
) -> Result<Result<Item, Why>, TreeFault>
    requires ready { IsReady S.Space space.old }
    requires room { (S.seen space.old).next + 2 ^ 20 ≤ 2 ^ 62 + 2 ^ 46 }
    ensures ends { IfOk result (λ end.
        Ends (RmAttr name.now key.now) end (S.seen space.old) (S.seen space.new)) }
    ensures failure { IfErr result
        (FailsUnlessFull (2 ^ 25 - 2 ^ 20) (S.seen space.old) (S.seen space.new)) }
    ensures next { (S.seen space.new).next < (S.seen space.old).next + 2 ^ 21 }
    ensures call { IsCall S.Space space.old space.new (space_fault result) }
{
    let Some(onode) = find(space, name)? else {
        return Ok(Err(Why::NoObject));
    };
    let old = del(alloc, space, onode.base, key)?;
    let fewer = with_fewer(onode, old.is_some());
    save(alloc, space, name, &fewer)?;
    Ok(Ok(Item::Unit))
}

// An onode with one attribute less, if one was taken.
fn with_fewer(onode: Onode, taken: bool) -> Onode
    ensures { result ≡ record onode { attrs = cond taken (onode.attrs - 1) onode.attrs } }
{
    if taken {
        Onode {
            attrs: onode.attrs.saturating_sub(1),
            ..onode
        }
    } else {
        onode
    }
}

/// Puts an attribute of an object, in place of the value that it had under the key, if there was
/// one. It is refused where the object has 64 others.
pub fn set_attr<S: Space>(
    alloc: Global,
    space: &mut S,
    name: &Name,
    key: &Key,
    value: &Data,
) -> Result<Result<Item, Why>, TreeFault>
    requires ready { IsReady S.Space space.old }
    requires room { (S.seen space.old).next + 2 ^ 20 ≤ 2 ^ 62 + 2 ^ 46 }
    requires value { length value.now ≤ VALUE_BYTES }
    ensures ends { IfOk result (λ end.
        Ends (SetAttr name.now key.now value.now) end (S.seen space.old) (S.seen space.new)) }
    ensures failure { IfErr result
        (FailsUnlessFull (2 ^ 25 - 2 ^ 20) (S.seen space.old) (S.seen space.new)) }
    ensures next { (S.seen space.new).next < (S.seen space.old).next + 2 ^ 21 }
    ensures call { IsCall S.Space space.old space.new (space_fault result) }
{
    let Some(onode) = find(space, name)? else {
        return Ok(Err(Why::NoObject));
    };
    if !may_have(space, &onode, key)? {
        return Ok(Err(Why::AttrFull));
    }
    let old = put(alloc, space, onode.base, key, value)?;
    let more = with_more(onode, old.is_none());
    save(alloc, space, name, &more)?;
    Ok(Ok(Item::Unit))
}

// Whether an object may have an attribute under a key: it has one there, or fewer than 64.
fn may_have<S: Space>(space: &mut S, onode: &Onode, key: &Key) -> Result<bool, TreeFault>
    requires { IsReady S.Space space.old }
    ensures told { IfOk result (λ may. (store : Store) (content : Values)
        → Meets store onode.now.base.0 (S.seen space.old) (S.seen space.new) content
        → may ≡ (nat_lt onode.now.attrs MOST_ATTRIBUTES || is_some (map.get content key.now))) }
    ensures fault { IfErr result
        (IsPathFault onode.now.base.0 key.now (S.seen space.old) (S.seen space.new)) }
    ensures reads { OnlyRead (S.seen space.old) (S.seen space.new) }
    ensures call { IsCall S.Space space.old space.new (space_fault result) }
{
    if onode.attrs < MOST_ATTRIBUTES {
        return Ok(true);
    }
    let value = get(space, onode.base, key)?;
    Ok(value.is_some())
}

// An onode with one attribute more, if one was added.
fn with_more(onode: Onode, added: bool) -> Onode
    ensures { result
        ≡ record onode { attrs = cond added ((onode.attrs + 1) % 2 ^ 32) onode.attrs } }
{
    if added {
        Onode {
            attrs: onode.attrs.wrapping_add(1),
            ..onode
        }
    } else {
        onode
    }
}
