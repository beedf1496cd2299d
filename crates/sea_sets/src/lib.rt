//! What transactions read, and which of them a commit overtakes.
#![tactic(auto)]

mod board;
mod notes;

pub use board::{Board, Conflict};
pub use notes::{Change, Note};

#[cfg(test)]
mod tests;
