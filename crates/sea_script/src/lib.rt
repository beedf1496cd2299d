//! The texts of the store: scripts, and the lines that a history prints.
#![tactic(auto)]

mod argument;
mod asked;
mod client;
mod draft;
mod event;
mod fault;
mod operation;
mod parts;
mod planning;
mod render;
mod script;
mod table;
mod text;
mod word;

pub use event::{Event, Events};
pub use render::{push_end, push_entry};
pub use script::{Script, ScriptFault, ScriptWhy, parse};
