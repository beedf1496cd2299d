//! Omap and attribute trees: keys of one tree put and taken out, and counted.
#![tactic(auto)]

mod changing;

pub use changing::{MOST_KEYS, NEW_NODES, set, unset};

#[cfg(test)]
mod tests;
