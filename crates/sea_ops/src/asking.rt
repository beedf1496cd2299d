//! Operations that only ask.
ghost use Rattle.std.specs.Prelude.{◌≡◌, ◌+◌, ◌≤◌, ◌%◌, ◌^◌, IfOk, IfErr};
ghost use Rattle.std.specs.Option.{option_copied};
ghost use Rattle.sea_base.specs.Ghosts.{IsReady, IsCall};
ghost use Rattle.sea_base.specs.Space.{OnlyRead};
ghost use Rattle.sea_object.specs.declared.op.Op.TheVariants.{Read, Stat, GetAttr, GetAttrs};
ghost use Rattle.sea_object.specs.declared.op.Op.TheVariants.{OmapGet, OmapList, List as ListNames};
ghost use Rattle.sea_object.specs.Answer as model;
ghost use Rattle.sea_object.specs.Op.{IsCount};
ghost use Rattle.sea_tree.specs.Calls.{space_fault};
ghost use Rattle.sea_ops.specs.Calls.{Does, Fails};

use sea_base::{Data, Key, Laddr, Name, Space};
use sea_data::read as read_bytes;
use sea_object::{Item, Onode};
use sea_onode::{find, names};
use sea_tree::{TreeFault, get, range};
use std::alloc::Global;

/// How many attributes an object has at most.
pub(crate) const MOST_ATTRIBUTES: u32 = 64;

/// The size of an object in bytes.
pub fn stat<S: Space>(space: &mut S, name: &Name) -> Result<Item, TreeFault>
    requires { IsReady S.Space space.old }
    ensures does { IfOk result (λ item.
        Does (Stat name.now) item (S.seen space.old) (S.seen space.new)) }
    ensures failure { IfErr result (Fails (S.seen space.old) (S.seen space.new)) }
    ensures reads { OnlyRead (S.seen space.old) (S.seen space.new) }
    ensures call { IsCall S.Space space.old space.new (space_fault result) }
{
    match find(space, name)? {
        Some(onode) => Ok(Item::Number(onode.size)),
        None => Ok(Item::Absent),
    }
}

/// The value of an attribute of an object.
pub fn get_attr<S: Space>(space: &mut S, name: &Name, key: &Key) -> Result<Item, TreeFault>
    requires { IsReady S.Space space.old }
    ensures does { IfOk result (λ item.
        Does (GetAttr name.now key.now) item (S.seen space.old) (S.seen space.new)) }
    ensures failure { IfErr result (Fails (S.seen space.old) (S.seen space.new)) }
    ensures reads { OnlyRead (S.seen space.old) (S.seen space.new) }
    ensures call { IsCall S.Space space.old space.new (space_fault result) }
{
    match find(space, name)? {
        Some(onode) => {
            let value = get(space, onode.base, key)?;
            Ok(value_item(value))
        }
        None => Ok(Item::Absent),
    }
}

/// All attributes of an object.
pub fn get_attrs<S: Space>(alloc: Global, space: &mut S, name: &Name) -> Result<Item, TreeFault>
    requires { IsReady S.Space space.old }
    ensures does { IfOk result (λ item.
        Does (GetAttrs name.now) item (S.seen space.old) (S.seen space.new)) }
    ensures failure { IfErr result (Fails (S.seen space.old) (S.seen space.new)) }
    ensures reads { OnlyRead (S.seen space.old) (S.seen space.new) }
    ensures call { IsCall S.Space space.old space.new (space_fault result) }
{
    match find(space, name)? {
        Some(onode) => {
            let pairs = range(alloc, space, onode.base, None, MOST_ATTRIBUTES)?;
            Ok(Item::Pairs(pairs))
        }
        None => Ok(Item::Absent),
    }
}

// What is answered of a value that was looked up.
fn value_item(value: Option<Data>) -> Item
    ensures { result ≡ model.value_item value }
{
    match value {
        Some(value) => Item::Bytes(value),
        None => Item::Absent,
    }
}

// The root of the tree of an object's keys.
pub(crate) fn omap_root(onode: &Onode) -> Laddr
    ensures { result.0 ≡ (onode.now.base.0 + 1) % 2 ^ 64 }
{
    Laddr(onode.base.0.wrapping_add(1))
}

/// The value of a key of an object's omap.
pub fn omap_get<S: Space>(space: &mut S, name: &Name, key: &Key) -> Result<Item, TreeFault>
    requires { IsReady S.Space space.old }
    ensures does { IfOk result (λ item.
        Does (OmapGet name.now key.now) item (S.seen space.old) (S.seen space.new)) }
    ensures failure { IfErr result (Fails (S.seen space.old) (S.seen space.new)) }
    ensures reads { OnlyRead (S.seen space.old) (S.seen space.new) }
    ensures call { IsCall S.Space space.old space.new (space_fault result) }
{
    match find(space, name)? {
        Some(onode) => {
            let value = get(space, omap_root(&onode), key)?;
            Ok(value_item(value))
        }
        None => Ok(Item::Absent),
    }
}

/// The first pairs of an object's omap, of the keys above `after`, or with none of all keys,
/// `limit` of them at most.
pub fn omap_list<S: Space>(
    alloc: Global,
    space: &mut S,
    name: &Name,
    limit: u32,
    after: Option<&Key>,
) -> Result<Item, TreeFault>
    requires { IsReady S.Space space.old }
    ensures does { IfOk result (λ item.
        Does (OmapList name.now limit (option_copied after.entry)) item
        (S.seen space.old) (S.seen space.new)) }
    ensures failure { IfErr result (Fails (S.seen space.old) (S.seen space.new)) }
    ensures reads { OnlyRead (S.seen space.old) (S.seen space.new) }
    ensures call { IsCall S.Space space.old space.new (space_fault result) }
{
    match find(space, name)? {
        Some(onode) => {
            let pairs = range(alloc, space, omap_root(&onode), after, limit)?;
            Ok(Item::Pairs(pairs))
        }
        None => Ok(Item::Absent),
    }
}

/// The bytes of an object from an offset on, up to a length and to the object's end.
pub fn read<S: Space>(
    alloc: Global,
    space: &mut S,
    name: &Name,
    offset: u32,
    length: u32,
) -> Result<Item, TreeFault>
    requires ready { IsReady S.Space space.old }
    requires range { (offset ≤ 16777216) × IsCount length 65536 }
    ensures does { IfOk result (λ item.
        Does (Read name.now offset length) item (S.seen space.old) (S.seen space.new)) }
    ensures failure { IfErr result (Fails (S.seen space.old) (S.seen space.new)) }
    ensures reads { OnlyRead (S.seen space.old) (S.seen space.new) }
    ensures call { IsCall S.Space space.old space.new (space_fault result) }
{
    match find(space, name)? {
        Some(onode) => {
            let bytes = read_bytes(alloc, space, &onode, offset, length)?;
            Ok(Item::Bytes(bytes))
        }
        None => Ok(Item::Absent),
    }
}

/// The first names of objects behind one, or with none of all objects, `limit` of them at most.
pub fn list<S: Space>(
    alloc: Global,
    space: &mut S,
    limit: u32,
    after: Option<&Name>,
) -> Result<Item, TreeFault>
    requires { IsReady S.Space space.old }
    ensures does { IfOk result (λ item. Does (ListNames limit (option_copied after.entry)) item
        (S.seen space.old) (S.seen space.new)) }
    ensures failure { IfErr result (Fails (S.seen space.old) (S.seen space.new)) }
    ensures reads { OnlyRead (S.seen space.old) (S.seen space.new) }
    ensures call { IsCall S.Space space.old space.new (space_fault result) }
{
    let listed = names(alloc, space, after, limit)?;
    Ok(Item::Names(listed))
}
