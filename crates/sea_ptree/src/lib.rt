//! Trees of physical nodes: from numbers to slots, copied on write.
#![tactic(auto)]

mod blocks;
mod checked;
mod fault;
mod kind;
mod laying;
mod link;
mod lookup;
mod making;
mod mark;
mod mending;
mod merging;
mod node;
mod reading;
mod relocating;
mod run;
mod view;
mod walking;

pub use blocks::Blocks;
pub use checked::Checked;
pub use fault::PFault;
pub use kind::Kind;
use link::Link;
pub use lookup::get;
pub use making::Fresh;
use making::Making;
pub use merging::merge;
pub use node::{Entries, Node};
pub use reading::MOST_ENTRIES;
pub use relocating::relocate;
pub use run::{MOST_KEYS, Run};
pub use walking::walk;
