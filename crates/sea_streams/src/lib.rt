//! What a command reads of its source, and what it puts out to its sink.
#![tactic(auto)]

mod fault;
mod printing;
mod reading;

pub use fault::{PrintFault, ReadFault};
pub use printing::{print_history, put_all};
pub use reading::read_script;

#[cfg(test)]
mod tests;
