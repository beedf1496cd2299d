use super::plain::read_tree;
use crate::fault::TrialFault;
use crate::map_tree::MapTree;
use crate::trial::{push, slot_of};
use sea_base::{Block, PRoot, Paddr, Slot, SpaceFault, Sum, sum_of};
use sea_ptree::{Kind, Node, PFault, Run, get};
use std::alloc::Global;

// A tree of three leaves.
fn three_leaves(alloc: Global) -> Result<MapTree, TrialFault> {
    let mut tree = MapTree::new(alloc);
    for from in 0..4u64 {
        let mut run = Run::new(alloc);
        for key in from * 64..from * 64 + 64 {
            push(&mut run, key, Some(slot_of(key)))?;
        }
        tree.merge(&run)?;
    }
    Ok(tree)
}

#[test]
fn a_place_that_fails_is_answered(rt: HostRuntime) -> Result<(), TrialFault> {
    let mut tree = three_leaves(rt.alloc())?;
    let root = tree.root();
    assert!(rt; root.height == 2);
    tree.blocks.fail_at(root.at);
    let fault = TrialFault::Tree(PFault::Space(SpaceFault::DeviceFault));
    assert!(rt; tree.get(7) == Err(fault));
    assert!(rt; tree.relocate(7, 0).err() == Some(fault));
    assert!(rt; tree.walk(7).err() == Some(fault));
    let run = Run::new(rt.alloc());
    assert!(rt; tree.merge(&run).err() == Some(fault));
    assert!(rt; tree.blocks.faults() == 4);
    assert!(rt; tree.root() == root);
    Ok(())
}

#[test]
fn a_leaf_that_fails_is_answered(rt: HostRuntime) -> Result<(), TrialFault> {
    let alloc = rt.alloc();
    let mut tree = three_leaves(alloc)?;
    let old = read_tree(alloc, &mut tree)?;
    let root = tree.root();
    // places stand parents first, so the second and the third are those of the first two leaves
    let (Some(first), Some(second)) = (old.places.get(1), old.places.get(2)) else {
        return Err(TrialFault::NoLevel);
    };
    let mut run = Run::new(alloc);
    for key in 0..60 {
        push(&mut run, key, None)?;
    }
    let fault = TrialFault::Tree(PFault::Space(SpaceFault::DeviceFault));
    tree.blocks.fail_at(Paddr(*first));
    assert!(rt; tree.get(7) == Err(fault));
    assert!(rt; tree.walk(0).err() == Some(fault));
    assert!(rt; tree.merge(&run).err() == Some(fault));
    assert!(rt; tree.relocate(7, 0).err() == Some(fault));
    assert!(rt; tree.blocks.faults() == 4);
    // the leaf beside is read where a leaf has too few entries left, and by a walk
    tree.blocks.fail_at(Paddr(*second));
    assert!(rt; tree.get(7)? == Some(slot_of(7)));
    assert!(rt; tree.walk(0)?.items().len() == 64);
    assert!(rt; tree.walk(70).err() == Some(fault));
    assert!(rt; tree.merge(&run).err() == Some(fault));
    assert!(rt; tree.merge(&Run::new(alloc))?.fresh == 2);
    assert!(rt; tree.blocks.faults() == 6);
    assert!(rt; tree.root() != root);
    Ok(())
}

#[test]
fn a_run_without_keys_writes_the_first_leaf(rt: HostRuntime) -> Result<(), TrialFault> {
    let alloc = rt.alloc();
    let mut tree = MapTree::new(alloc);
    assert!(rt; tree.merge(&Run::new(alloc))?.fresh == 0);
    assert!(rt; tree.root().height == 0);
    let mut tree = three_leaves(alloc)?;
    let old = read_tree(alloc, &mut tree)?;
    assert!(rt; tree.merge(&Run::new(alloc))?.fresh == 2);
    let now = read_tree(alloc, &mut tree)?;
    assert!(rt; now.good);
    assert!(rt; now.pairs == old.pairs);
    Ok(())
}

// The bytes of a leaf of two pairs, the keys 1 and 2, in which one byte is another.
fn broken(alloc: Global, at: usize, byte: u8) -> Result<Block, TrialFault> {
    let mut bytes = [0; 4096];
    bytes[0] = b'S';
    bytes[1] = b'L';
    bytes[2] = b'B';
    bytes[3] = b'A';
    bytes[7] = 2;
    bytes[39] = 1;
    bytes[67] = 2;
    if at < 4096 {
        bytes[at] = byte;
    }
    Ok(Block::new(alloc, &bytes)?)
}

#[test]
fn a_broken_node_is_none(rt: HostRuntime) -> Result<(), TrialFault> {
    let alloc = rt.alloc();
    let whole = broken(alloc, 4096, 0)?;
    assert!(rt; Node::parse(alloc, Kind::Mapping, &whole)?.is_some());
    assert!(rt; Node::parse(alloc, Kind::Owners, &whole)?.is_none());
    // the word, the level, the zero, the count, the zeros, a key out of order, behind the entries
    for (at, byte) in [
        (0, 1),
        (4, 8),
        (5, 1),
        (6, 1),
        (7, 0),
        (8, 1),
        (39, 2),
        (4095, 1),
    ] {
        let block = broken(alloc, at, byte)?;
        assert!(rt; Node::parse(alloc, Kind::Mapping, &block)?.is_none());
    }
    // a leaf is no node of the level above, and another sum is none of its own
    let sum = sum_of(&whole);
    let mut tree = MapTree::new(alloc);
    tree.blocks.lay(whole)?;
    let root = PRoot {
        at: Paddr(0),
        height: 2,
        sum,
    };
    let none = PFault::NoNode { block: Paddr(0) };
    assert!(rt; get(&mut tree.blocks, Kind::Mapping, root, 1) == Err(none));
    let leaf = PRoot { height: 1, ..root };
    let slot: Option<Slot> = get(&mut tree.blocks, Kind::Mapping, leaf, 1)?;
    assert!(rt; slot.is_some());
    let other = PRoot {
        sum: Sum(sum.0 ^ 1),
        ..leaf
    };
    assert!(rt; get(&mut tree.blocks, Kind::Mapping, other, 1).is_err());
    Ok(())
}

// The same with the word of the owners, or one level up, and one byte more that is another.
fn broken_twice(
    alloc: Global,
    word: &[u8],
    level: u8,
    at: usize,
    byte: u8,
) -> Result<Block, TrialFault> {
    let leaf = broken(alloc, 4, level)?;
    let mut bytes = Vec::from_slice(alloc, word)?;
    bytes.extend_from_slice(&leaf.bytes()[4..])?;
    if let Some(place) = bytes.get_mut(at) {
        *place = byte;
    }
    if bytes.len() != 4096 {
        return Err(TrialFault::NoLevel);
    }
    Ok(Block::from_vec(bytes)?)
}

#[test]
fn what_the_fields_of_a_node_may_hold(rt: HostRuntime) -> Result<(), TrialFault> {
    let alloc = rt.alloc();
    // the first entry has its key at byte 32, its place at 40, its version at 44, its sum at 52
    for (kind, word, level, at, is_node) in [
        (Kind::Mapping, b"SLBA", 0, 43, true),
        (Kind::Mapping, b"SLBA", 0, 51, true),
        (Kind::Mapping, b"SLBA", 0, 59, true),
        (Kind::Mapping, b"SLBA", 1, 43, true),
        (Kind::Mapping, b"SLBA", 1, 51, false),
        (Kind::Mapping, b"SLBA", 1, 59, true),
        (Kind::Owners, b"SOWN", 0, 43, false),
        (Kind::Owners, b"SOWN", 0, 51, true),
        (Kind::Owners, b"SOWN", 0, 59, false),
        (Kind::Owners, b"SOWN", 1, 51, false),
        (Kind::Owners, b"SOWN", 7, 43, true),
        (Kind::Mapping, b"SLBA", 0, 32, false),
        (Kind::Mapping, b"SLBA", 0, 6, false),
        (Kind::Mapping, b"SOWN", 0, 43, false),
        (Kind::Owners, b"SLBA", 0, 51, false),
    ] {
        let block = broken_twice(alloc, word, level, at, 1)?;
        assert!(rt; Node::parse(alloc, kind, &block)?.is_some() == is_node);
    }
    Ok(())
}

#[test]
fn a_node_has_145_entries_at_most(rt: HostRuntime) -> Result<(), TrialFault> {
    let alloc = rt.alloc();
    for (count, is_node) in [(144, true), (145, true), (146, false)] {
        let mut bytes = Vec::from_slice(alloc, b"SLBA\0\0\0")?;
        bytes.push(count)?;
        bytes.resize(32, 0)?;
        for key in 0..count {
            bytes.extend_from_slice(&[0, 0, 0, 0, 0, 0, 0, key])?;
            let end = bytes.len().saturating_add(20);
            bytes.resize(end, 7)?;
        }
        if is_node {
            bytes.resize(4096, 0)?;
        }
        bytes.truncate(4096);
        if bytes.len() != 4096 {
            return Err(TrialFault::NoLevel);
        }
        let block = Block::from_vec(bytes)?;
        assert!(rt; Node::parse(alloc, Kind::Mapping, &block)?.is_some() == is_node);
    }
    Ok(())
}
