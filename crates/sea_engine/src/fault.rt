//! Why an engine doesn't open.
ghost use Rattle.std.specs.Prelude.{◌≡◌};

use crate::reading::OpenFault;
use sea_base::NoMemory;
use sea_journal::ResumeFault;
use sea_trail::ImageWhy;
use thiserror::Error;

/// A number that a journal counts.
#[derive(Clone, Copy, Debug, PartialEq, Eq)]
pub enum Number {
    /// Of records.
    Commit,
    /// Of openings.
    Mount,
    /// Of segments.
    Seq,
}

/// A number that is used up.
#[derive(Clone, Copy, Debug, PartialEq, Eq)]
pub struct Spent {
    pub which: Number,
    pub at: u64,
}

/// Why an engine doesn't open.
#[derive(Clone, Copy, Debug, PartialEq, Eq, Error)]
pub enum MountFault {
    #[error("no memory")]
    NoMemory,
    /// A call of the device failed.
    #[error("device fault")]
    DeviceFault,
    /// Its image opens to no objects.
    #[error("refused")]
    Refused(ImageWhy),
    /// A number of the last record is used up.
    #[error("spent")]
    Spent(Spent),
    /// There is no block for the mount record.
    #[error("no space")]
    NoSpace,
}

impl From<NoMemory> for MountFault {
    ghost use Rattle.sea_engine.specs.declared.fault.MountFault.TheVariants.{NoMemory};

    ghost from_gives = { λ _ fault. fault ≡ NoMemory };

    fn from(_: NoMemory) -> Self {
        MountFault::NoMemory
    }
}

impl From<OpenFault> for MountFault {
    ghost use Rattle.sea_engine.specs.Mounting.{mount_fault};

    ghost from_gives = { λ fault made. made ≡ mount_fault fault };

    fn from(fault: OpenFault) -> Self {
        match fault {
            OpenFault::NoMemory => MountFault::NoMemory,
            OpenFault::DeviceFault => MountFault::DeviceFault,
            OpenFault::Refused(why) => MountFault::Refused(why),
        }
    }
}

impl From<ResumeFault> for MountFault {
    ghost use Rattle.sea_engine.specs.Mounting.{resume_fault};

    ghost from_gives = { λ fault made. made ≡ resume_fault fault };

    fn from(fault: ResumeFault) -> Self {
        match fault {
            ResumeFault::NoMemory => MountFault::NoMemory,
            ResumeFault::DeviceFault => MountFault::DeviceFault,
            ResumeFault::NoSpace => MountFault::NoSpace,
        }
    }
}
