//! The journal of a store: records one behind the other, in segments of a device.
#![tactic(auto)]

mod fit;
mod fresh;
mod fronts;
mod journal;
mod law;
mod put;
mod queue;
mod roll;
mod room;

pub use fit::can_resume;
pub use fresh::{MkfsFault, mkfs};
pub use journal::{Journal, ReserveFault, ResumeFault};
pub use law::journal_laws;
pub use room::{Who, takes};

#[cfg(test)]
mod journal_tests;
#[cfg(test)]
mod tests;

/// How many blocks a segment has. The first is its header's.
pub const SEGMENT_BLOCKS: u32 = 2048;
