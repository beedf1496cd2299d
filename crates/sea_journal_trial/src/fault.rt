//! The faults of a trial.

use sea_base::{NoMemory, SpaceFault};
use sea_device::Failed;
use sea_journal::{MkfsFault, ReserveFault, ResumeFault};
use sea_trail::ScanFault;
use std::alloc::{AllocError, AllocFailed};
use std::io;
use thiserror::Error;

/// Why a trial was not done, or what it found.
#[derive(Clone, Copy, Debug, PartialEq, Eq, Error)]
pub enum TrialFault {
    #[error("usage: sea_journal_trial crashes LOST | faults | push RECORDS | hash RECORDS")]
    Usage,
    #[error("no memory")]
    NoMemory,
    #[error("the device failed")]
    Device,
    #[error("mkfs: {0}")]
    Mkfs(MkfsFault),
    #[error("scan: {0}")]
    Scan(ScanFault),
    #[error("resume: {0}")]
    Resume(ResumeFault),
    #[error("reserve: {0}")]
    Reserve(ReserveFault),
    #[error("block: {0:?}")]
    Block(SpaceFault),
    /// A call would ask for what doesn't hold.
    #[error("not asked for as it may be")]
    Unfit,
    /// The image of a crash within this write doesn't hold a prefix, with these blocks of it lost.
    #[error("no prefix: write {write}, lost {lost:b}")]
    NoPrefix { write: u64, lost: u32 },
    /// Something else was answered, or stands, than should.
    #[error("wrong: {0}")]
    Wrong(&'static str),
    /// The runtime failed.
    #[error("input or output failed")]
    Runtime,
}

impl TrialFault {
    /// The program's exit status: 1 for its words, and 2 for all else.
    pub fn status(self) -> u8 {
        match self {
            TrialFault::Usage => 1,
            _ => 2,
        }
    }
}

impl From<NoMemory> for TrialFault {
    fn from(_: NoMemory) -> Self {
        TrialFault::NoMemory
    }
}

impl From<AllocError> for TrialFault {
    fn from(_: AllocError) -> Self {
        TrialFault::NoMemory
    }
}

impl<T: Drop> From<AllocFailed<T>> for TrialFault {
    fn from(_: AllocFailed<T>) -> Self {
        TrialFault::NoMemory
    }
}

impl From<Failed> for TrialFault {
    fn from(_: Failed) -> Self {
        TrialFault::Device
    }
}

impl From<MkfsFault> for TrialFault {
    fn from(fault: MkfsFault) -> Self {
        TrialFault::Mkfs(fault)
    }
}

impl From<ScanFault> for TrialFault {
    fn from(fault: ScanFault) -> Self {
        TrialFault::Scan(fault)
    }
}

impl From<ResumeFault> for TrialFault {
    fn from(fault: ResumeFault) -> Self {
        TrialFault::Resume(fault)
    }
}

impl From<ReserveFault> for TrialFault {
    fn from(fault: ReserveFault) -> Self {
        TrialFault::Reserve(fault)
    }
}

impl From<SpaceFault> for TrialFault {
    fn from(fault: SpaceFault) -> Self {
        TrialFault::Block(fault)
    }
}

impl From<io::Error> for TrialFault {
    fn from(_: io::Error) -> Self {
        TrialFault::Runtime
    }
}
