//! Nodes of logical trees.
#![tactic(auto)]

mod edit;
mod entry;
mod leap;
mod lookup;
mod node;
mod order;
mod reading;
mod splice;

pub use lookup::Lookup;
pub use node::{Node, ROOM_BYTES};
pub use reading::{ENTRY_BYTES, VALUE_BYTES};
pub use splice::BlockEdit;
