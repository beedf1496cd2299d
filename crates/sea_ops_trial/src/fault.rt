//! The faults of a trial.

use sea_base::{NameFault, NoMemory, SpaceFault};
use sea_object::Why;
use sea_ops::OpFault;
use sea_tree::TreeFault;
use std::alloc::{AllocError, AllocFailed};
use std::io;
use thiserror::Error;

const NO_MEMORY: TrialFault = TrialFault::Tree(TreeFault::Space(SpaceFault::NoMemory));

/// Why a trial was not done.
#[derive(Clone, Copy, Debug, PartialEq, Eq, Error)]
pub enum TrialFault {
    /// The words are not three numbers.
    #[error("usage: sea_ops_trial SETS GETS WRITES")]
    Usage,
    /// A call on the store failed, or memory ran out.
    #[error("{0}")]
    Tree(TreeFault),
    /// Bytes make no name.
    #[error("bad name")]
    BadName,
    /// An operation is beyond its limits.
    #[error("beyond limits")]
    BeyondLimits,
    /// An operation was refused, for this reason.
    #[error("refused")]
    Refused(Why),
    /// An operation answered what it never answers.
    #[error("wrong answer")]
    WrongAnswer,
    /// There were as many operations as a trial may do.
    #[error("too many operations")]
    TooMany,
    /// The runtime failed.
    #[error("input or output failed")]
    Runtime,
}

impl TrialFault {
    /// The program's exit status: 1 for its words, and 2 for all else.
    pub fn status(self) -> u8 {
        match self {
            TrialFault::Usage => 1,
            _ => 2,
        }
    }
}

impl From<TreeFault> for TrialFault {
    fn from(fault: TreeFault) -> Self {
        TrialFault::Tree(fault)
    }
}

impl From<OpFault> for TrialFault {
    fn from(fault: OpFault) -> Self {
        match fault {
            OpFault::Refused(why) => TrialFault::Refused(why),
            OpFault::Tree(fault) => TrialFault::Tree(fault),
        }
    }
}

impl From<SpaceFault> for TrialFault {
    fn from(fault: SpaceFault) -> Self {
        TrialFault::Tree(TreeFault::Space(fault))
    }
}

impl From<NoMemory> for TrialFault {
    fn from(_: NoMemory) -> Self {
        NO_MEMORY
    }
}

impl From<AllocError> for TrialFault {
    fn from(_: AllocError) -> Self {
        NO_MEMORY
    }
}

impl<T: Drop> From<AllocFailed<T>> for TrialFault {
    fn from(_: AllocFailed<T>) -> Self {
        NO_MEMORY
    }
}

impl From<NameFault> for TrialFault {
    fn from(fault: NameFault) -> Self {
        match fault {
            NameFault::NoMemory => NO_MEMORY,
            NameFault::BadName => TrialFault::BadName,
        }
    }
}

impl From<io::Error> for TrialFault {
    fn from(_: io::Error) -> Self {
        TrialFault::Runtime
    }
}
