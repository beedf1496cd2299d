//! The contract between an engine and the transactions that it runs.
#![tactic(auto)]

mod transactions;

pub use transactions::{ExecFault, Executed, Transactions};
