//! The faults of a trial.

use sea_base::NoMemory;
use sea_script::ScriptFault;
use std::alloc::{AllocError, AllocFailed};
use std::io;
use thiserror::Error;

/// Why a trial was not done.
#[derive(Clone, Copy, Debug, PartialEq, Eq, Error)]
pub enum TrialFault {
    #[error("usage: sea_object_trial parse|render|apply TIMES < SCRIPT")]
    Usage,
    #[error("no memory")]
    NoMemory,
    /// The input is no script.
    #[error("{0}")]
    Script(ScriptFault),
    /// The history has no room for another entry.
    #[error("too many requests")]
    TooMany,
    /// The runtime failed.
    #[error("input or output failed")]
    Runtime,
}

impl TrialFault {
    /// The program's exit status: 1 for its words, and 2 for all else.
    pub fn status(self) -> u8 {
        match self {
            TrialFault::Usage => 1,
            _ => 2,
        }
    }
}

impl From<NoMemory> for TrialFault {
    fn from(_: NoMemory) -> Self {
        TrialFault::NoMemory
    }
}

impl From<AllocError> for TrialFault {
    fn from(_: AllocError) -> Self {
        TrialFault::NoMemory
    }
}

impl<T: Drop> From<AllocFailed<T>> for TrialFault {
    fn from(_: AllocFailed<T>) -> Self {
        TrialFault::NoMemory
    }
}

impl From<ScriptFault> for TrialFault {
    fn from(fault: ScriptFault) -> Self {
        TrialFault::Script(fault)
    }
}

impl From<io::Error> for TrialFault {
    fn from(_: io::Error) -> Self {
        TrialFault::Runtime
    }
}
