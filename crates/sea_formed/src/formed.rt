//! A well-formed store, and the objects that it holds.
ghost use Rattle.std.specs.Prelude.{◌≡◌, ◌+◌, ◌^◌, ◌≤◌, ◌<◌, ◌++◌, IfOk, OnOk, map};
ghost use Rattle.std.specs.List.{All, flat_map};
ghost use Rattle.sea_ops.specs.WellFormed.{IsWellFormed};
ghost use Rattle.sea_formed.specs.Blocks.{store_of};
ghost use Rattle.sea_formed.specs.Held.{objects_of};
ghost use Rattle.sea_formed.specs.Shares.{AreFar, AreAlone, HasUse, EndsBefore, nodes_of};

use crate::blocks::Blocks;
use crate::object::{Held, read_objects};
use crate::share::{all_nodes, are_alone, are_far, ends_before, has_use};
use crate::tree::read_tree;
use crate::wrong::Wrong;
use sea_base::NoMemory;
use std::alloc::Global;

// The addresses of no two objects meet.
fn check_ranges(alloc: Global, held: &[Held]) -> Result<(), Wrong>
    ensures { OnOk result (AreFar 4098 (map (λ one. one.onode.base.0) held.now)) }
{
    let bases = bases_of(alloc, held)?;
    if !are_far(&bases, 4098) {
        return Err(Wrong::Breaks("the addresses of two objects are apart"));
    }
    Ok(())
}

// Where the addresses of each object begin.
fn bases_of(alloc: Global, held: &[Held]) -> Result<Vec<u64>, NoMemory>
    ensures { IfOk result (λ bases. bases.items ≡ map (λ one. one.onode.base.0) held.now) }
{
    let mut bases = Vec::new(alloc);
    for one in held {
        bases.push(one.onode.base.0)?;
    }
    Ok(bases)
}

// Among the addresses of an object the only nodes are the roots of its own trees.
fn check_alone(own: &[u64], held: &[Held]) -> Result<(), Wrong>
    requires { All (λ one. one.onode.base.0 + 4098 < 2 ^ 64) held.now }
    ensures own { OnOk result (AreAlone held.now 1 own.now) }
    ensures attributes { OnOk result
        (All (λ one. AreAlone held.now one.onode.base.0 one.attributes.nodes.items) held.now) }
    ensures omaps { OnOk result
        (All (λ one. AreAlone held.now (one.onode.base.0 + 1) one.omap.nodes.items) held.now) }
{
    if !are_alone(1, own, held) {
        return Err(Wrong::Breaks("an onode's node is no address of an object"));
    }
    for one in held {
        if !are_alone(one.onode.base.0, &one.attributes.nodes, held) {
            return Err(Wrong::Breaks("an attribute's node is no address of an object"));
        }
        if !are_alone(one.onode.base.0 + 1, &one.omap.nodes, held) {
            return Err(Wrong::Breaks("a node of an omap is no address of an object"));
        }
    }
    Ok(())
}

// No two trees share a node, and what is filled has its use.
fn check_filled(
    alloc: Global,
    filled: &[u64],
    next: u64,
    own: &[u64],
    held: &[Held],
) -> Result<(), Wrong>
    ensures apart { OnOk result (AreFar 1 (own.now ++ flat_map nodes_of held.now)) }
    ensures used { OnOk result
        (All (HasUse (own.now ++ flat_map nodes_of held.now) held.now) filled.now) }
    ensures within { OnOk result (All (λ at. (1 ≤ at) × (at < next)) filled.now) }
    ensures ends { OnOk result
        (All (λ at. All (λ one. EndsBefore one.onode at) held.now) filled.now) }
{
    let nodes = all_nodes(alloc, own, held)?;
    if !are_far(&nodes, 1) {
        return Err(Wrong::Breaks("no two trees share a node"));
    }
    for at in filled {
        if *at < 1 || *at >= next {
            return Err(Wrong::Breaks("what is filled was given"));
        }
        if !has_use(*at, &nodes, held) {
            return Err(Wrong::Breaks("what is filled has its use"));
        }
        if !ends_before(*at, held) {
            return Err(Wrong::Breaks("no data block stands behind an object's end"));
        }
    }
    Ok(())
}

/// The objects of a well-formed store with this next address, in the order of their names.
pub fn objects_in(alloc: Global, blocks: &Blocks, next: u64) -> Result<Vec<Held>, Wrong>
    ensures { IfOk result (λ held.
        IsWellFormed (store_of blocks.now) next (objects_of held.items)) }
{
    if next < 2 {
        return Err(Wrong::Breaks("the first address to be given is 2"));
    }
    let onodes = read_tree(alloc, blocks, 1)?;
    let held = read_objects(alloc, blocks, &onodes.pairs, next)?;
    check_ranges(alloc, &held)?;
    check_alone(&onodes.nodes, &held)?;
    let filled = blocks.filled(alloc)?;
    check_filled(alloc, &filled, next, &onodes.nodes, &held)?;
    Ok(held)
}
