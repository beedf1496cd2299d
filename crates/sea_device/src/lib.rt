//! What the store stands on: a device of blocks, a source of bytes and a sink, each as a trait with its
//! whole meaning, and their forms in memory.
#![tactic(auto)]

mod append;
mod call_log;
mod device;
mod failures;
mod memory;
mod overwrite;
mod sink;
mod sources;
mod steady;
mod stream;

pub use device::{Device, Failed};
pub use memory::{Chosen, Fails, MemDevice};
pub use sink::MemSink;
pub use sources::{MemSource, SteadySource};
pub use steady::SteadyDevice;
pub use stream::{Sink, Source};

#[cfg(test)]
mod tests;
