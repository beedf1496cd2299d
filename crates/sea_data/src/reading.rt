//! Reading an object's bytes.
ghost use Rattle.std.specs.Prelude.{◌≡◌, ◌+◌, ◌-◌, ◌<◌, ◌≤◌, ◌++◌, take, drop, min, ◌^◌, vec_len, Some, IfOk, OnOk, replicate};
ghost use Rattle.std.specs.Result.{result_err};
ghost use Rattle.sea_base.specs.Ghosts.{IsReady, IsCall};
ghost use Rattle.sea_base.specs.Space.{Store, Agrees, IsKnown, OnlyRead, ReadsAtMost, laid};
ghost use Rattle.sea_object.specs.Op.{IsCount};
ghost use Rattle.sea_data.specs.Bytes.{bytes_of, bytes_from, block_part};
ghost use Rattle.sea_data.specs.Ranges.{Touches, ReadsBlocks};

use crate::part::{BYTES, Part, address_of};
use sea_base::{Block, Data, Laddr, NoMemory, Space, SpaceFault};
use sea_object::Onode;
use std::alloc::Global;

/// The bytes of an object from an offset on, up to a length and to the object's end.
pub fn read<S: Space>(
    alloc: Global,
    space: &mut S,
    onode: &Onode,
    offset: u32,
    length: u32,
) -> Result<Data, SpaceFault>
    requires ready { IsReady S.Space space.old }
    requires range { (offset ≤ 16777216) × IsCount length 65536 }
    ensures bytes { IfOk result (λ found. (store : Store) → Agrees store (S.seen space.new)
        → found ≡ take length (drop offset
        (bytes_of (laid (S.seen space.old) store) onode.now.base.0 onode.now.size))) }
    ensures within { ReadsBlocks onode.now.base.0
        (Touches offset (min onode.now.size (offset + length)))
        (S.seen space.old) (S.seen space.new) }
    ensures reads { OnlyRead (S.seen space.old) (S.seen space.new) }
    ensures call { IsCall S.Space space.old space.new (result_err result) }
{
    let end = onode.size.min(offset + length);
    let bytes = bytes_between(alloc, space, onode, offset, end)?;
    Ok(Data::from_vec(bytes)?)
}

// The bytes of an object from one offset on, before another.
fn bytes_between<S: Space>(
    alloc: Global,
    space: &mut S,
    onode: &Onode,
    from: u32,
    to: u32,
) -> Result<Vec<u8>, SpaceFault>
    requires ready { IsReady S.Space space.old }
    requires range { to ≤ 16842752 }
    ensures bytes { IfOk result (λ found. (store : Store) → Agrees store (S.seen space.new)
        → found.items
        ≡ bytes_from (laid (S.seen space.old) store) onode.now.base.0 from (to - from)) }
    ensures within { ReadsBlocks onode.now.base.0 (Touches from to)
        (S.seen space.old) (S.seen space.new) }
    ensures reads { OnlyRead (S.seen space.old) (S.seen space.new) }
    ensures call { IsCall S.Space space.old space.new (result_err result) }
{
    let mut bytes = Vec::new(alloc);
    if to <= from {
        return Ok(bytes);
    }
    for index in from / BYTES..(to - 1) / BYTES + 1 {
        let part = Part::of(index, from, (to - from) as usize);
        let count = part.to - part.from;
        push_part(
            space,
            address_of(onode, index),
            part.place,
            count,
            &mut bytes,
        )?;
    }
    Ok(bytes)
}

// Appends so many bytes of a block, from a place on.
fn push_part<S: Space>(
    space: &mut S,
    at: Laddr,
    place: usize,
    count: usize,
    bytes: &mut Vec<u8>,
) -> Result<(), SpaceFault>
    requires ready { IsReady S.Space space.old }
    requires room { place + count ≤ 4096 }
    requires few { vec_len bytes.old ≤ 16842752 }
    ensures pushed { OnOk result (bytes.new.items
        ≡ bytes.old.items ++ block_part ((S.seen space.new).view at.0) place count) }
    ensures len { OnOk result (vec_len bytes.new ≡ vec_len bytes.old + count) }
    ensures known { OnOk result (IsKnown (S.seen space.new) at.0) }
    ensures one { ReadsAtMost at.0 (S.seen space.old) (S.seen space.new) }
    ensures call { IsCall S.Space space.old space.new (result_err result) }
{
    match space.get(at)? {
        Some(block) => Ok(push_bytes(bytes, &block, place, count)?),
        None => Ok(push_zeros(bytes, count)?),
    }
}

fn push_bytes(
    bytes: &mut Vec<u8>,
    block: &Block,
    place: usize,
    count: usize,
) -> Result<(), NoMemory>
    requires { place + count ≤ 4096 }
    ensures pushed { OnOk result (bytes.new.items
        ≡ bytes.old.items ++ block_part (Some block.now) place count) }
    ensures len { OnOk result (vec_len bytes.new ≡ vec_len bytes.old + count) }
{
    bytes.extend_from_slice(&block.bytes()[place..place + count])?;
    Ok(())
}

fn push_zeros(bytes: &mut Vec<u8>, count: usize) -> Result<(), NoMemory>
    requires { vec_len bytes.old + count < 2 ^ 64 }
    ensures pushed { OnOk result (bytes.new.items ≡ bytes.old.items ++ replicate count 0) }
    ensures len { OnOk result (vec_len bytes.new ≡ vec_len bytes.old + count) }
{
    bytes.resize(bytes.len() + count, 0)?;
    Ok(())
}
