//! Many clients over a journal.
#![tactic(auto)]

mod engine;
mod fault;
mod law;
mod opening;
mod reading;
mod replay;
mod state;

pub use engine::Engine;
pub use fault::{MountFault, Number, Spent};
pub use law::{engine_laws, opening_laws, turn_laws};
pub use reading::{OpenFault, read_image};
pub use replay::{ReplayFault, are_rising, replayed};
pub use state::ClientState;
