//! The trail of an image: which segments and records of it count, and where they end.
#![tactic(auto)]

mod chain;
mod fault;
mod joining;
mod law;
mod link;
mod place;
mod reading;
mod scanning;
mod superblock;
mod survey;
mod trail;

pub use fault::{ImageWhy, ReadFault, ScanFault};
pub use law::trail_laws;
pub use link::Link;
pub use place::{SEGMENT_BLOCKS, blocks_needed, first_block, header_block};
pub use scanning::scan;
pub use trail::{Part, Trail};
