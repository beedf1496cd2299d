use super::dice::Dice;
use super::plain::{Found, first_leaf, read_tree};
use crate::fault::TrialFault;
use crate::map_tree::{Change, MapTree};
use crate::trial::{push, slot_of};
use sea_base::Slot;
use sea_ptree::Run;
use std::alloc::Global;
use std::process::Abort;

// Whether the nodes now and the dead ones are the old nodes and the fresh ones.
fn exchanged(
    alloc: Global,
    old: &Found,
    now: &Found,
    place: usize,
    change: &Change,
) -> Result<bool, TrialFault> {
    let mut was = Vec::new(alloc);
    was.extend_from_slice(&old.places)?;
    for step in 0..change.fresh {
        was.push(place.saturating_add(step).min(4_000_000_000) as u32)?;
    }
    let mut is = Vec::new(alloc);
    is.extend_from_slice(&now.places)?;
    for at in &change.dead {
        is.push(at.0)?;
    }
    was.sort_unstable();
    is.sort_unstable();
    Ok(was == is)
}

// The key that the leaf behind that of a key begins with, or the greatest number.
fn leaf_end(found: &Found, key: u64) -> u64 {
    found
        .leaves
        .iter()
        .copied()
        .skip(1)
        .find(|first| *first > key)
        .unwrap_or(u64::MAX)
}

// Lays a run over a sorted list.
fn lay(pairs: &mut Vec<(u64, Slot)>, run: &Run) -> Result<(), TrialFault> {
    for (key, slot) in run.items() {
        pairs.retain(|pair| pair.0 != *key);
        if let Some(slot) = slot {
            pairs.push((*key, *slot))?;
        }
    }
    pairs.sort_unstable_by_key(|pair| pair.0);
    Ok(())
}

// Keys are drawn below this one.
const KEYS: u64 = 30_000;

// A run of keys that lead to one leaf. Where `gone` is high, most of them go.
fn some_run(alloc: Global, dice: &mut Dice, found: &Found, gone: u64) -> Result<Run, TrialFault> {
    let mut run = Run::new(alloc);
    let mut key = dice.below(KEYS);
    let end = leaf_end(found, key);
    for _ in 0..64 {
        if key >= end {
            break;
        }
        let slot = if dice.below(10) < gone {
            None
        } else {
            Some(slot_of(dice.below(1_000_000)))
        };
        push(&mut run, key, slot)?;
        key = key.saturating_add(1 + dice.below(3));
    }
    Ok(run)
}

fn step(
    rt: &impl Abort,
    alloc: Global,
    tree: &mut MapTree,
    pairs: &mut Vec<(u64, Slot)>,
    dice: &mut Dice,
    gone: u64,
) -> Result<(), TrialFault> {
    let old = read_tree(alloc, tree)?;
    let place = tree.blocks.len();
    let run = some_run(alloc, dice, &old, gone)?;
    let change = tree.merge(&run)?;
    assert!(rt; change.fresh <= 17);
    lay(pairs, &run)?;
    let now = read_tree(alloc, tree)?;
    assert!(rt; now.good);
    assert!(rt; now.pairs == *pairs);
    assert!(rt; exchanged(alloc, &old, &now, place, &change)?);
    Ok(())
}

fn move_some(
    rt: &impl Abort,
    alloc: Global,
    tree: &mut MapTree,
    pairs: &Vec<(u64, Slot)>,
    dice: &mut Dice,
) -> Result<(), TrialFault> {
    let height = tree.root().height;
    if height == 0 {
        return Ok(());
    }
    let level = dice.below(u64::from(height)) as u32;
    let old = read_tree(alloc, tree)?;
    let place = tree.blocks.len();
    let change = tree.relocate(dice.below(4000), level)?;
    assert!(rt; change.fresh == (height - level) as usize);
    let now = read_tree(alloc, tree)?;
    assert!(rt; now.good);
    assert!(rt; now.pairs == *pairs);
    assert!(rt; exchanged(alloc, &old, &now, place, &change)?);
    Ok(())
}

// Whether a lookup and a walk from a key agree with a sorted list.
fn agrees(tree: &mut MapTree, pairs: &Vec<(u64, Slot)>, key: u64) -> Result<bool, TrialFault> {
    let is = pairs.iter().find(|pair| pair.0 == key).map(|pair| pair.1);
    if tree.get(key)? != is {
        return Ok(false);
    }
    let walked = tree.walk(key)?;
    let mut wanted = pairs.iter().filter(|pair| pair.0 >= key);
    for (at, slot) in walked.items() {
        match wanted.next() {
            Some(pair) if pair.0 == *at && *slot == Some(pair.1) => {}
            _ => return Ok(false),
        }
    }
    Ok(walked.items().len() == 64 || wanted.next().is_none())
}

// One step and one relocation after the other, and lookups and walks between them.
fn rounds(
    rt: &impl Abort,
    alloc: Global,
    tree: &mut MapTree,
    pairs: &mut Vec<(u64, Slot)>,
    dice: &mut Dice,
    count: u32,
    gone: u64,
) -> Result<(), TrialFault> {
    for _ in 0..count {
        step(rt, alloc, tree, pairs, dice, gone)?;
        move_some(rt, alloc, tree, pairs, dice)?;
        let key = dice.below(KEYS);
        assert!(rt; agrees(tree, pairs, key)?);
    }
    Ok(())
}

#[test]
fn runs_agree_with_a_sorted_list(rt: HostRuntime) -> Result<(), TrialFault> {
    let alloc = rt.alloc();
    let mut tree = MapTree::new(alloc);
    let mut pairs = Vec::new(alloc);
    let mut dice = Dice::new(7);
    for gone in [2, 9, 2, 2, 5] {
        rounds(&rt, alloc, &mut tree, &mut pairs, &mut dice, 40, gone)?;
    }
    assert!(rt; pairs.len() > 3000);
    assert!(rt; tree.root().height == 2);
    // the keys of the first leaf go, until nothing is left
    for _ in 0..1000 {
        let run = first_goes(alloc, &mut tree)?;
        if run.items().is_empty() {
            break;
        }
        tree.merge(&run)?;
        lay(&mut pairs, &run)?;
        let now = read_tree(alloc, &mut tree)?;
        assert!(rt; now.good);
        assert!(rt; now.pairs == pairs);
    }
    assert!(rt; pairs.is_empty());
    assert!(rt; tree.root().height == 0);
    Ok(())
}

// A run by which the first keys of the first leaf go.
fn first_goes(alloc: Global, tree: &mut MapTree) -> Result<Run, TrialFault> {
    let mut run = Run::new(alloc);
    for pair in first_leaf(alloc, tree)?.iter().take(64) {
        push(&mut run, pair.0, None)?;
    }
    Ok(run)
}

#[test]
fn a_tree_grows_to_three_levels_and_back(rt: HostRuntime) -> Result<(), TrialFault> {
    let alloc = rt.alloc();
    let mut tree = MapTree::new(alloc);
    for from in 0..250u64 {
        let mut run = Run::new(alloc);
        for step in 0..64u64 {
            push(&mut run, from * 64 + step, Some(slot_of(from)))?;
        }
        tree.merge(&run)?;
    }
    assert!(rt; tree.root().height == 3);
    let found = read_tree(alloc, &mut tree)?;
    assert!(rt; found.good);
    assert!(rt; found.pairs.len() == 16_000);
    for step in 0..1000 {
        let run = first_goes(alloc, &mut tree)?;
        if run.items().is_empty() {
            break;
        }
        tree.merge(&run)?;
        if step % 16 == 0 {
            assert!(rt; read_tree(alloc, &mut tree)?.good);
        }
    }
    assert!(rt; tree.root().height == 0);
    Ok(())
}
