//! The trial itself.

use crate::fault::TrialFault;
use crate::keys::{key_of, sample_value};
use crate::map_tree::MapTree;
use sea_base::Nths;
use std::alloc::Global;
use std::fmt;

/// How many pairs a range asks for.
const RANGE_PAIRS: u32 = 64;

/// How many calls a trial makes.
#[derive(Clone, Copy, Debug, PartialEq, Eq)]
pub struct Calls {
    /// The pairs put.
    pub puts: u32,
    /// The keys looked for.
    pub gets: u32,
    /// The ranges taken.
    pub ranges: u32,
}

/// What a trial counted.
#[derive(Clone, Copy, Debug, PartialEq, Eq)]
pub struct Report {
    calls: Calls,
    found: u32,
    taken: u64,
    pairs: u64,
    nodes: u64,
    level: u8,
}

impl fmt::Display for Report {
    fn fmt<W: fmt::Write>(&self, f: &mut fmt::Formatter<W>) -> fmt::Result {
        let Report {
            calls,
            found,
            taken,
            pairs,
            nodes,
            level,
        } = *self;
        let Calls { puts, gets, ranges } = calls;
        write!(
            f,
            "puts {puts} gets {gets} found {found} ranges {ranges} taken {taken}"
        )?;
        write!(f, " pairs {pairs} nodes {nodes} level {level}")
    }
}

/// Puts so many pairs into an empty tree, gets so many of them in another order, and takes so many
/// ranges behind them.
pub fn run_trial(alloc: Global, calls: Calls) -> Result<Report, TrialFault> {
    let mut tree = filled_tree(alloc, calls.puts)?;
    let found = count_found(alloc, &mut tree, calls)?;
    let taken = count_taken(alloc, &mut tree, calls)?;
    let checked = tree.check()?;
    let level = tree.level()?;
    Ok(Report {
        calls,
        found,
        taken,
        pairs: checked.pairs,
        nodes: checked.nodes,
        level,
    })
}

/// A tree of the first so many pairs.
pub fn filled_tree(alloc: Global, puts: u32) -> Result<MapTree, TrialFault> {
    let mut tree = MapTree::new(alloc, Nths::new(alloc));
    let value = sample_value(alloc)?;
    for number in 0..puts {
        tree.put(&key_of(alloc, number)?, &value)?;
    }
    Ok(tree)
}

// How many gets find a value.
fn count_found(alloc: Global, tree: &mut MapTree, calls: Calls) -> Result<u32, TrialFault> {
    let mut found = 0u32;
    for number in 0..calls.gets {
        let key = key_of(alloc, shuffled(number, calls.puts))?;
        if tree.get(&key)?.is_some() {
            found = found.saturating_add(1);
        }
    }
    Ok(found)
}

// How many pairs the ranges take.
fn count_taken(alloc: Global, tree: &mut MapTree, calls: Calls) -> Result<u64, TrialFault> {
    let mut taken = 0u64;
    for number in 0..calls.ranges {
        let key = key_of(alloc, shuffled(number, calls.puts))?;
        let pairs = tree.range(Some(&key), RANGE_PAIRS)?;
        taken = taken.saturating_add(pairs.items().len() as u64);
    }
    Ok(taken)
}

// A number below `count`, or 0. Numbers that follow one another are far apart.
fn shuffled(number: u32, count: u32) -> u32 {
    number
        .wrapping_mul(2_654_435_761)
        .checked_rem(count)
        .unwrap_or(0)
}
