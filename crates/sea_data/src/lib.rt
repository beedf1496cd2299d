//! The bytes of an object, in data blocks of 4,096 bytes each.
#![tactic(auto)]

mod cutting;
mod part;
mod patching;
mod reading;
mod writing;

pub use cutting::cut;
pub use reading::read;
pub use writing::{write, zero};

#[cfg(test)]
mod tests;
