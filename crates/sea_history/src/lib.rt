//! What clients ask for, and the history of what was served.
#![tactic(auto)]

mod history;
mod plan;

pub use history::{Entry, HISTORY_ENTRIES, History, SENT_BACK};
pub use plan::{CLIENT_REQUESTS, CLIENTS, Plan};
