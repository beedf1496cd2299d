//! Where the store meets the system: an image in a file as a device, and standard input and output, or
//! any reader and writer, as a source and a sink.
#![tactic(auto)]

mod faults;
mod file_device;
mod streams;

pub use file_device::FileDevice;
pub use streams::{StdSink, StdSource};

#[cfg(test)]
mod tests;
