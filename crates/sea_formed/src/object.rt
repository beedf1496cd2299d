//! Objects, read from their blocks.
ghost use Rattle.std.specs.Prelude.{◌≡◌, ◌+◌, ◌^◌, ◌<◌, ◌≤◌, IfOk};
ghost use Rattle.sea_data.specs.Bytes.{bytes_of, byte_at};
ghost use Rattle.sea_onode.specs.Spelling.{Spells};
ghost use Rattle.sea_formed.specs.Blocks.{store_of};
ghost use Rattle.sea_formed.specs.Held.{IsWithinLimits, IsHeld, AreHeld};

use crate::blocks::Blocks;
use crate::tree::{Tree, read_tree};
use crate::wrong::Wrong;
use sea_base::{Data, Duplicate, Key, NoMemory};
use sea_object::Onode;
use sea_onode::read_onode;
use std::alloc::Global;

/// An object that a store holds.
#[derive(Debug, Drop)]
pub struct Held {
    /// Its name.
    pub name: Key,
    /// Where it stands.
    pub onode: Onode,
    /// Its bytes.
    pub bytes: Vec<u8>,
    /// The tree of its attributes.
    pub attributes: Tree,
    /// The tree of its omap.
    pub omap: Tree,
}

// The onode that a value spells, whose numbers are within their limits.
fn onode_in(value: &[u8], next: u64) -> Result<Onode, Wrong>
    ensures spelled { IfOk result (Spells value.now) }
    ensures limits { IfOk result (IsWithinLimits next) }
{
    let Some(onode) = read_onode(value) else {
        return Err(Wrong::Breaks("a value of the onode tree spells an onode"));
    };
    let base = onode.base.0;
    if base < 2 || next < 4098 || base > next - 4098 {
        return Err(Wrong::Breaks("an object's addresses were given"));
    }
    if onode.size > 16_777_216 {
        return Err(Wrong::Breaks("an object has 16,777,216 bytes at most"));
    }
    if onode.attrs > 64 {
        return Err(Wrong::Breaks("an object has 64 attributes at most"));
    }
    if onode.keys > 10_000 {
        return Err(Wrong::Breaks("an omap has 10,000 keys at most"));
    }
    Ok(onode)
}

// A byte of an object's data blocks. Where none stands, it is zero.
fn byte_of(blocks: &Blocks, base: u64, index: u64) -> u8
    requires base { base + 4098 < 2 ^ 64 }
    requires index { index < 16777216 }
    ensures { result ≡ byte_at (store_of blocks.now) base index }
{
    match blocks.get(base + 2 + index / 4096) {
        Some(block) => block.bytes()[(index % 4096) as usize],
        None => 0,
    }
}

// The bytes of an object's data blocks, up to its size.
fn read_bytes(alloc: Global, blocks: &Blocks, onode: Onode) -> Result<Vec<u8>, NoMemory>
    requires base { onode.base.0 + 4098 < 2 ^ 64 }
    requires size { onode.size ≤ 16777216 }
    ensures { IfOk result (λ bytes.
        bytes.items ≡ bytes_of (store_of blocks.now) onode.base.0 onode.size) }
{
    let mut bytes = Vec::new(alloc);
    for index in 0..u64::from(onode.size) {
        bytes.push(byte_of(blocks, onode.base.0, index))?;
    }
    Ok(bytes)
}

// The object of an onode.
fn read_object(alloc: Global, blocks: &Blocks, name: &Key, onode: Onode) -> Result<Held, Wrong>
    requires base { onode.base.0 + 4098 < 2 ^ 64 }
    requires size { onode.size ≤ 16777216 }
    ensures held { IfOk result (IsHeld (store_of blocks.now)) }
    ensures name { IfOk result (λ held. held.name ≡ name.now) }
    ensures onode { IfOk result (λ held. held.onode ≡ onode) }
{
    let attributes = read_tree(alloc, blocks, onode.base.0)?;
    let omap = read_tree(alloc, blocks, onode.base.0 + 1)?;
    if attributes.pairs.len() != onode.attrs as usize {
        return Err(Wrong::Breaks("an onode counts the attributes"));
    }
    if omap.pairs.len() != onode.keys as usize {
        return Err(Wrong::Breaks("an onode counts the keys"));
    }
    let bytes = read_bytes(alloc, blocks, onode)?;
    Ok(Held {
        name: name.copy()?,
        onode,
        bytes,
        attributes,
        omap,
    })
}

/// The objects of the pairs of an onode tree.
pub(crate) fn read_objects(
    alloc: Global,
    blocks: &Blocks,
    pairs: &[(Key, Data)],
    next: u64,
) -> Result<Vec<Held>, Wrong>
    ensures { IfOk result (λ held. AreHeld (store_of blocks.now) next pairs.now held.items) }
{
    let mut held = Vec::new(alloc);
    for (name, value) in pairs {
        let onode = onode_in(value.bytes(), next)?;
        held.push(read_object(alloc, blocks, name, onode)?)?;
    }
    Ok(held)
}
