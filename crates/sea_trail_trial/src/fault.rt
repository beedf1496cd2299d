//! The faults of a trial.

use sea_base::NoMemory;
use sea_device::Failed;
use sea_trail::ScanFault;
use std::alloc::{AllocError, AllocFailed};
use std::io;
use thiserror::Error;

/// Why a trial was not done.
#[derive(Clone, Copy, Debug, PartialEq, Eq, Error)]
pub enum TrialFault {
    #[error("usage: sea_trail_trial scan|hash|spell SEGMENTS TIMES")]
    Usage,
    #[error("no memory")]
    NoMemory,
    /// A block is none of the device's.
    #[error("beyond the device")]
    Beyond,
    /// The plain reader tells something else than the scan.
    #[error("read in two ways")]
    Differ,
    /// The image has no trail.
    #[error("{0}")]
    Scan(ScanFault),
    /// The runtime failed.
    #[error("input or output failed")]
    Runtime,
}

impl TrialFault {
    /// The program's exit status: 1 for its words, and 2 for all else.
    pub fn status(self) -> u8 {
        match self {
            TrialFault::Usage => 1,
            _ => 2,
        }
    }
}

impl From<NoMemory> for TrialFault {
    fn from(_: NoMemory) -> Self {
        TrialFault::NoMemory
    }
}

impl From<AllocError> for TrialFault {
    fn from(_: AllocError) -> Self {
        TrialFault::NoMemory
    }
}

impl<T: Drop> From<AllocFailed<T>> for TrialFault {
    fn from(_: AllocFailed<T>) -> Self {
        TrialFault::NoMemory
    }
}

impl From<Failed> for TrialFault {
    fn from(_: Failed) -> Self {
        TrialFault::Beyond
    }
}

impl From<ScanFault> for TrialFault {
    fn from(fault: ScanFault) -> Self {
        TrialFault::Scan(fault)
    }
}

impl From<io::Error> for TrialFault {
    fn from(_: io::Error) -> Self {
        TrialFault::Runtime
    }
}
