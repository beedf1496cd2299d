//! The faults of a trial.

use sea_base::{NoMemory, SpaceFault};
use sea_ptree::PFault;
use std::alloc::{AllocError, AllocFailed};
use std::io;
use thiserror::Error;

const NO_MEMORY: TrialFault = TrialFault::Tree(PFault::Space(SpaceFault::NoMemory));

/// Why a trial was not done.
#[derive(Clone, Copy, Debug, PartialEq, Eq, Error)]
pub enum TrialFault {
    /// The words are not three numbers.
    #[error("usage: sea_map_trial RUNS LOOKUPS SUMS")]
    Usage,
    /// A call on the tree failed, or memory ran out.
    #[error("{0}")]
    Tree(PFault),
    /// A run takes no more keys, or they don't rise.
    #[error("no run")]
    NoRun,
    /// There is no such level.
    #[error("no level")]
    NoLevel,
    /// There is no place for more blocks.
    #[error("too many blocks")]
    TooMany,
    /// The runtime failed.
    #[error("input or output failed")]
    Runtime,
}

impl TrialFault {
    /// The program's exit status: 1 for its words, and 2 for all else.
    pub fn status(self) -> u8 {
        match self {
            TrialFault::Usage => 1,
            _ => 2,
        }
    }
}

impl From<PFault> for TrialFault {
    fn from(fault: PFault) -> Self {
        TrialFault::Tree(fault)
    }
}

impl From<NoMemory> for TrialFault {
    fn from(_: NoMemory) -> Self {
        NO_MEMORY
    }
}

impl From<AllocError> for TrialFault {
    fn from(_: AllocError) -> Self {
        NO_MEMORY
    }
}

impl<T: Drop> From<AllocFailed<T>> for TrialFault {
    fn from(_: AllocFailed<T>) -> Self {
        NO_MEMORY
    }
}

impl From<io::Error> for TrialFault {
    fn from(_: io::Error) -> Self {
        TrialFault::Runtime
    }
}
