//! What the journal knows of its segments: the superblock, the header of a segment, and the table
//! of their states.
#![tactic(auto)]

mod header;
mod seal;
mod state;
mod superblock;
mod table;

pub use header::Header;
pub use state::{SegState, Segment};
pub use superblock::{AnySuper, FORMAT, MAX_SEGMENTS, MIN_SEGMENTS, Super, is_segment_count};
pub use table::Table;
