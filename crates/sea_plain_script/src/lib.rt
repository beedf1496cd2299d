//! The texts of the store: the scripts that ask for requests, and the lines that a history prints.
#![tactic(auto)]

mod history;
mod plan;
mod render;
mod script;

pub use history::Entry;
pub use plan::{Asked, Plan};
pub use render::{push_end, push_entry};
pub use script::{ScriptFault, ScriptWhy, read_script};
