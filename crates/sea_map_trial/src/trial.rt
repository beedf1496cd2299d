//! The trial itself.

use crate::fault::TrialFault;
use crate::map_tree::MapTree;
use sea_base::{BLOCK_BYTES, Block, Commit, Paddr, Slot, Sum, sum_of};
use sea_ptree::Run;
use std::alloc::Global;
use std::fmt;

/// What a trial does how often.
#[derive(Clone, Copy, Debug, PartialEq, Eq)]
pub struct Counts {
    /// Runs merged.
    pub runs: u32,
    /// Keys looked up.
    pub lookups: u32,
    /// Blocks summed.
    pub sums: u32,
}

/// What a trial counted.
#[derive(Clone, Copy, Debug, PartialEq, Eq)]
pub struct Report {
    runs: u32,
    lookups: u32,
    found: u32,
    fresh: usize,
    height: u32,
    sums: u32,
}

impl fmt::Display for Report {
    fn fmt<W: fmt::Write>(&self, f: &mut fmt::Formatter<W>) -> fmt::Result {
        let Report {
            runs,
            lookups,
            found,
            fresh,
            height,
            sums,
        } = *self;
        write!(f, "runs {runs} lookups {lookups} found {found}")?;
        write!(f, " fresh nodes {fresh} height {height} sums {sums}")
    }
}

/// Merges runs of 64 keys into an empty tree, looks keys up, and sums a block.
pub fn run_trial(alloc: Global, counts: Counts) -> Result<Report, TrialFault> {
    let Counts {
        runs,
        lookups,
        sums,
    } = counts;
    let mut tree = MapTree::new(alloc);
    let mut fresh = 0usize;
    for number in 0..runs {
        let run = run_from(alloc, u64::from(number) * 64)?;
        fresh = fresh.saturating_add(tree.merge(&run)?.fresh);
    }
    let found = count_found(&mut tree, runs, lookups)?;
    Ok(Report {
        runs,
        lookups,
        found,
        fresh,
        height: tree.root().height,
        sums: count_sums(alloc, sums)?,
    })
}

/// A slot of a number.
pub fn slot_of(number: u64) -> Slot {
    Slot {
        at: Paddr((number % 1_000_000) as u32),
        version: Commit(number),
        sum: Sum(number.wrapping_mul(61)),
    }
}

// The 64 keys from one on.
fn run_from(alloc: Global, from: u64) -> Result<Run, TrialFault> {
    let mut run = Run::new(alloc);
    for step in 0..64 {
        let key = from.saturating_add(step);
        push(&mut run, key, Some(slot_of(key)))?;
    }
    Ok(run)
}

/// Appends a key, if a run may have it.
pub fn push(run: &mut Run, key: u64, slot: Option<Slot>) -> Result<(), TrialFault> {
    if run.items().len() >= 64 || !run.is_below(key) {
        return Err(TrialFault::NoRun);
    }
    Ok(run.push((key, slot))?)
}

// How many lookups find a slot.
fn count_found(tree: &mut MapTree, runs: u32, lookups: u32) -> Result<u32, TrialFault> {
    let mut found = 0u32;
    for number in 0..lookups {
        let key = shuffled(u64::from(number), u64::from(runs) * 64);
        if tree.get(key)? == Some(slot_of(key)) {
            found = found.saturating_add(1);
        }
    }
    Ok(found)
}

// A number below `count`, or 0. Numbers that follow one another are far apart.
fn shuffled(number: u64, count: u64) -> u64 {
    number
        .wrapping_mul(2_654_435_761)
        .checked_rem(count)
        .unwrap_or(0)
}

// Sums a block so many times, and counts the sums that are the same as the first.
fn count_sums(alloc: Global, sums: u32) -> Result<u32, TrialFault> {
    let block = Block::new(alloc, &[7; BLOCK_BYTES])?;
    let first = sum_of(&block);
    let mut same = 0u32;
    for _ in 0..sums {
        if sum_of(&block) == first {
            same = same.saturating_add(1);
        }
    }
    Ok(same)
}
