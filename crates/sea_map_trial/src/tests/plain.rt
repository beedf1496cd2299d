ghost use Rattle.std.specs.Prelude.{◌≡◌};

use crate::blocks::MemBlocks;
use crate::fault::TrialFault;
use crate::map_tree::MapTree;
use sea_base::{Paddr, Slot, Sum};
use sea_ptree::{Blocks, Kind, Node};
use std::alloc::Global;

// What a plain reader finds in a tree: its pairs, the places of its nodes, and the keys from which
// its leaves begin. `good` says that its nodes keep their rules.
#[derive(Drop)]
pub struct Found {
    pub pairs: Vec<(u64, Slot)>,
    pub places: Vec<u32>,
    pub leaves: Vec<u64>,
    pub good: bool,
}

// Reads a whole tree.
pub fn read_tree(alloc: Global, tree: &mut MapTree) -> Result<Found, TrialFault> {
    let mut found = Found {
        pairs: Vec::new(alloc),
        places: Vec::new(alloc),
        leaves: Vec::new(alloc),
        good: true,
    };
    let root = tree.root();
    if root.height == 0 {
        return Ok(found);
    }
    let least = if root.height == 1 { 1 } else { 2 };
    read_node(
        alloc,
        &mut tree.blocks,
        root.at,
        root.sum,
        root.height - 1,
        least,
        &mut found,
    )?;
    let rises = found.pairs.windows(2).all(|pair| match pair {
        [(a, _), (b, _)] => a < b,
        _ => false,
    });
    if !rises {
        found.good = false;
    }
    Ok(found)
}

// Reads the node of a level and what stands below it. It is to have so many entries at least.
fn read_node(
    alloc: Global,
    blocks: &mut MemBlocks,
    at: Paddr,
    sum: Sum,
    level: u32,
    least: usize,
    found: &mut Found,
) -> Result<(), TrialFault> {
    let block = blocks.block(at, sum).map_err(|_| TrialFault::Runtime)?;
    let node = Node::parse(alloc, Kind::Mapping, block.block())?.ok_or(TrialFault::NoLevel)?;
    let entries = node.entries.into_vec();
    if node.level != level || entries.len() < least {
        found.good = false;
    }
    found.places.push(at.0)?;
    if level == 0 {
        match entries.first() {
            Some(first) => found.leaves.push(first.0)?,
            None => found.good = false,
        }
        found.pairs.extend_from_slice(&entries)?;
        return Ok(());
    }
    for (key, slot) in &entries {
        let before = found.pairs.len();
        read_node(alloc, blocks, slot.at, slot.sum, level - 1, 37, found)?;
        if found.pairs.get(before).map(|pair| pair.0) != Some(*key) {
            found.good = false;
        }
    }
    Ok(())
}

// The entries of the first leaf, if the tree has one.
pub fn first_leaf(alloc: Global, tree: &mut MapTree) -> Result<Vec<(u64, Slot)>, TrialFault> {
    let root = tree.root();
    let mut entries = Vec::new(alloc);
    let mut at = root.at;
    let mut sum = root.sum;
    for _ in 0..root.height {
        let block = tree.blocks.block(at, sum).map_err(|_| TrialFault::Runtime)?;
        let node = Node::parse(alloc, Kind::Mapping, block.block())?.ok_or(TrialFault::NoLevel)?;
        entries = node.entries.into_vec();
        let first = entries.first().ok_or(TrialFault::NoLevel)?;
        at = first.1.at;
        sum = first.1.sum;
    }
    Ok(entries)
}
