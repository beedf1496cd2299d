//! Writing an object's bytes.
ghost use Rattle.std.specs.Prelude.{◌≡◌, ℕ, ◌+◌, ◌-◌, ◌/◌, ◌<◌, ◌≤◌, length, max, replicate, OnOk};
ghost use Rattle.std.specs.Result.{result_err};
ghost use Rattle.sea_base.specs.Ghosts.{IsReady, IsCall};
ghost use Rattle.sea_base.specs.Space.{Store, laid};
ghost use Rattle.sea_object.specs.Op.{IsWritten, blocks_touched};
ghost use Rattle.sea_object.specs.Answer.{written};
ghost use Rattle.sea_data.specs.Bytes.{bytes_of};
ghost use Rattle.sea_data.specs.Calls.{Meets, Becomes, WriteForm, WriteFootprint};
ghost use Rattle.sea_data.specs.Steps.{Does, ClearsOldEnd, part_steps};

use crate::part::{BYTES, Part, address_of};
use crate::patching::{clear_from, write_part, zeros};
use sea_base::{BLOCK_BYTES, Space, SpaceFault};
use sea_object::Onode;
use std::alloc::Global;

/// Writes bytes from an offset on, with zeros before them where the object ended before it. The
/// onode is the one before; the object is as long then as it was, or to the end of what is
/// written.
pub fn write<S: Space>(
    alloc: Global,
    space: &mut S,
    onode: &Onode,
    offset: u32,
    bytes: &[u8],
) -> Result<(), SpaceFault>
    requires ready { IsReady S.Space space.old }
    requires range { IsWritten offset (length bytes.now) }
    ensures changed { OnOk result ((store : Store) (next : ℕ)
        → Meets store next onode.now (S.seen space.old) (S.seen space.new)
        → Becomes store next onode.now (max onode.now.size (offset + length bytes.now))
        (written offset bytes.now
        (bytes_of (laid (S.seen space.old) store) onode.now.base.0 onode.now.size))
        (S.seen space.old) (S.seen space.new)) }
    ensures form { OnOk result
        (WriteForm onode.now offset bytes.now (S.seen space.old) (S.seen space.new)) }
    ensures footprint { OnOk result (WriteFootprint onode.now offset (offset + length bytes.now)
        (S.seen space.old) (S.seen space.new)) }
    ensures next { (S.seen space.new).next ≡ (S.seen space.old).next }
    ensures call { IsCall S.Space space.old space.new (result_err result) }
{
    let end = offset + bytes.len() as u32;
    clear_old_end(alloc, space, onode, offset, end)?;
    write_parts(alloc, space, onode, offset, bytes)
}

/// Writes zeros in a range. The onode is the one before; the object is as long then as it was, or
/// to the end of the range.
pub fn zero<S: Space>(
    alloc: Global,
    space: &mut S,
    onode: &Onode,
    offset: u32,
    length: u32,
) -> Result<(), SpaceFault>
    requires ready { IsReady S.Space space.old }
    requires range { IsWritten offset length }
    ensures changed { OnOk result ((store : Store) (next : ℕ)
        → Meets store next onode.now (S.seen space.old) (S.seen space.new)
        → Becomes store next onode.now (max onode.now.size (offset + length))
        (written offset (replicate length 0)
        (bytes_of (laid (S.seen space.old) store) onode.now.base.0 onode.now.size))
        (S.seen space.old) (S.seen space.new)) }
    ensures form { OnOk result (WriteForm onode.now offset (replicate length 0)
        (S.seen space.old) (S.seen space.new)) }
    ensures footprint { OnOk result (WriteFootprint onode.now offset (offset + length)
        (S.seen space.old) (S.seen space.new)) }
    ensures next { (S.seen space.new).next ≡ (S.seen space.old).next }
    ensures call { IsCall S.Space space.old space.new (result_err result) }
{
    clear_old_end(alloc, space, onode, offset, offset + length)?;
    zero_parts(alloc, space, onode, offset, length)
}

/// Zeros the bytes past the end of an object that is enlarged, in the block that holds that end,
/// unless the range that is written covers the block.
pub(crate) fn clear_old_end<S: Space>(
    alloc: Global,
    space: &mut S,
    onode: &Onode,
    from: u32,
    to: u32,
) -> Result<(), SpaceFault>
    requires ready { IsReady S.Space space.old }
    requires range { to ≤ 16777216 }
    ensures done { OnOk result (ClearsOldEnd onode.now.base.0 onode.now.size from to
        (S.seen space.old) (S.seen space.new)) }
    ensures next { (S.seen space.new).next ≡ (S.seen space.old).next }
    ensures call { IsCall S.Space space.old space.new (result_err result) }
{
    let index = onode.size / BYTES;
    let cut = onode.size % BYTES;
    if cut == 0 || to <= onode.size {
        return Ok(());
    }
    if from <= index * BYTES && (index + 1) * BYTES <= to {
        return Ok(());
    }
    clear_from(alloc, space, address_of(onode, index), cut as usize)
}

// Writes bytes block by block.
fn write_parts<S: Space>(
    alloc: Global,
    space: &mut S,
    onode: &Onode,
    offset: u32,
    bytes: &[u8],
) -> Result<(), SpaceFault>
    requires ready { IsReady S.Space space.old }
    requires range { IsWritten offset (length bytes.now) }
    ensures done { OnOk result (Does (part_steps onode.now.base.0 offset bytes.now
        (blocks_touched offset (length bytes.now))) (S.seen space.old) (S.seen space.new)) }
    ensures next { (S.seen space.new).next ≡ (S.seen space.old).next }
    ensures call { IsCall S.Space space.old space.new (result_err result) }
{
    let end = offset + bytes.len() as u32;
    for index in offset / BYTES..(end - 1) / BYTES + 1 {
        let part = Part::of(index, offset, bytes.len());
        let source = &bytes[part.from..part.to];
        write_part(alloc, space, address_of(onode, index), part.place, source)?;
    }
    Ok(())
}

// Writes zeros block by block.
fn zero_parts<S: Space>(
    alloc: Global,
    space: &mut S,
    onode: &Onode,
    offset: u32,
    length: u32,
) -> Result<(), SpaceFault>
    requires ready { IsReady S.Space space.old }
    requires range { IsWritten offset length }
    ensures done { OnOk result (Does (part_steps onode.now.base.0 offset (replicate length 0)
        (blocks_touched offset length)) (S.seen space.old) (S.seen space.new)) }
    ensures next { (S.seen space.new).next ≡ (S.seen space.old).next }
    ensures call { IsCall S.Space space.old space.new (result_err result) }
{
    let zeros = zeros(alloc, BLOCK_BYTES.min(length as usize))?;
    for index in offset / BYTES..(offset + length - 1) / BYTES + 1 {
        let part = Part::of(index, offset, length as usize);
        let source = &zeros[..part.to - part.from];
        write_part(alloc, space, address_of(onode, index), part.place, source)?;
    }
    Ok(())
}
