//! A plain, slow checker of a well-formed store of objects, which reads them from its blocks alone.
#![tactic(auto)]

mod blocks;
mod formed;
mod object;
mod place;
mod share;
mod tree;
mod wrong;

pub use blocks::Blocks;
pub use formed::objects_in;
pub use object::Held;
pub use tree::{Tree, read_tree};
pub use wrong::Wrong;
