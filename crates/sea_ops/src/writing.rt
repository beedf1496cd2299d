//! Changing the bytes of an object.
ghost use Rattle.std.specs.Prelude.{◌≡◌, ◌+◌, ◌-◌, ◌<◌, ◌≤◌, ◌^◌, max, length as length_of, IfOk, IfErr};
ghost use Rattle.sea_base.specs.Ghosts.{IsReady, IsCall};
ghost use Rattle.sea_object.specs.Op.{IsWritten};
ghost use Rattle.sea_object.specs.declared.op.Op.TheVariants.{Truncate, Write, Zero};
ghost use Rattle.sea_tree.specs.Calls.{space_fault};
ghost use Rattle.sea_ops.specs.Calls.{Does, Ends, Fails, FailsUnlessFull};
ghost use Rattle.sea_ops.specs.Opening.{Opens};

use sea_base::{Data, Name, Space};
use sea_data::{cut, write as write_bytes, zero as zero_bytes};
use sea_object::{Item, Onode, Why};
use sea_onode::{OBJECT_ADDRESSES, find, new_onode, save};
use sea_tree::TreeFault;
use std::alloc::Global;

/// Writes bytes into an object from an offset on, with zeros before them where it ended before it.
/// The object is made where there is none.
pub fn write<S: Space>(
    alloc: Global,
    space: &mut S,
    name: &Name,
    offset: u32,
    bytes: &Data,
) -> Result<Item, TreeFault>
    requires ready { IsReady S.Space space.old }
    requires room { (S.seen space.old).next + 2 ^ 20 ≤ 2 ^ 62 + 2 ^ 46 }
    requires range { IsWritten offset (length_of bytes.now) }
    ensures does { IfOk result (λ item.
        Does (Write name.now offset bytes.now) item (S.seen space.old) (S.seen space.new)) }
    ensures failure { IfErr result
        (FailsUnlessFull (2 ^ 25 - 2 ^ 20) (S.seen space.old) (S.seen space.new)) }
    ensures next { (S.seen space.new).next < (S.seen space.old).next + 2 ^ 21 }
    ensures call { IsCall S.Space space.old space.new (space_fault result) }
{
    let onode = onode_of(space, name)?;
    write_bytes(alloc, space, &onode, offset, bytes.bytes())?;
    let reaching = reaching(onode, offset + bytes.len() as u32);
    save(alloc, space, name, &reaching)?;
    Ok(Item::Unit)
}

/// Writes zeros into a range of an object. The object is made where there is none.
pub fn zero<S: Space>(
    alloc: Global,
    space: &mut S,
    name: &Name,
    offset: u32,
    length: u32,
) -> Result<Item, TreeFault>
    requires ready { IsReady S.Space space.old }
    requires room { (S.seen space.old).next + 2 ^ 20 ≤ 2 ^ 62 + 2 ^ 46 }
    requires range { IsWritten offset length }
    ensures does { IfOk result (λ item.
        Does (Zero name.now offset length) item (S.seen space.old) (S.seen space.new)) }
    ensures failure { IfErr result
        (FailsUnlessFull (2 ^ 25 - 2 ^ 20) (S.seen space.old) (S.seen space.new)) }
    ensures next { (S.seen space.new).next < (S.seen space.old).next + 2 ^ 21 }
    ensures call { IsCall S.Space space.old space.new (space_fault result) }
{
    let onode = onode_of(space, name)?;
    zero_bytes(alloc, space, &onode, offset, length)?;
    let reaching = reaching(onode, offset + length);
    save(alloc, space, name, &reaching)?;
    Ok(Item::Unit)
}

// The onode of an object, or that of a new one at the next addresses where there is none.
fn onode_of<S: Space>(space: &mut S, name: &Name) -> Result<Onode, TreeFault>
    requires ready { IsReady S.Space space.old }
    requires room { (S.seen space.old).next + 2 ^ 20 ≤ 2 ^ 62 + 2 ^ 46 }
    ensures opened { IfOk result (λ onode.
        Opens name.now onode (S.seen space.old) (S.seen space.new)) }
    ensures failure { IfErr result (Fails (S.seen space.old) (S.seen space.new)) }
    ensures next { ((S.seen space.old).next ≤ (S.seen space.new).next)
        × ((S.seen space.new).next ≤ (S.seen space.old).next + OBJECT_ADDRESSES) }
    ensures call { IsCall S.Space space.old space.new (space_fault result) }
{
    match find(space, name)? {
        Some(onode) => Ok(onode),
        None => {
            let base = space.alloc(OBJECT_ADDRESSES)?;
            Ok(new_onode(base))
        }
    }
}

// An onode whose size reaches to an end at least.
fn reaching(onode: Onode, end: u32) -> Onode
    ensures { result ≡ record onode { size = max onode.size end } }
{
    Onode {
        size: onode.size.max(end),
        ..onode
    }
}

/// Cuts an object to a size, or fills it with zeros to it.
pub fn truncate<S: Space>(
    alloc: Global,
    space: &mut S,
    name: &Name,
    size: u32,
) -> Result<Result<Item, Why>, TreeFault>
    requires ready { IsReady S.Space space.old }
    requires room { (S.seen space.old).next + 2 ^ 20 ≤ 2 ^ 62 + 2 ^ 46 }
    requires range { size ≤ 16777216 }
    ensures ends { IfOk result (λ end.
        Ends (Truncate name.now size) end (S.seen space.old) (S.seen space.new)) }
    ensures failure { IfErr result
        (FailsUnlessFull (2 ^ 25 - 2 ^ 20) (S.seen space.old) (S.seen space.new)) }
    ensures next { (S.seen space.new).next < (S.seen space.old).next + 2 ^ 21 }
    ensures call { IsCall S.Space space.old space.new (space_fault result) }
{
    let Some(onode) = find(space, name)? else {
        return Ok(Err(Why::NoObject));
    };
    cut(alloc, space, &onode, size)?;
    let resized = Onode { size, ..onode };
    save(alloc, space, name, &resized)?;
    Ok(Ok(Item::Unit))
}
