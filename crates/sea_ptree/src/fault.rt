//! Why a call on a physical tree was not done.
ghost use Rattle.std.specs.Prelude.{◌≡◌};
ghost use Rattle.sea_base.specs.declared.space.SpaceFault.TheVariants.{NoMemory as OutOfMemory};
ghost use Rattle.sea_ptree.specs.declared.fault.PFault.TheVariants.{Space as OfSpace};

use sea_base::{NoMemory, Paddr, SpaceFault};
use std::alloc::{AllocError, AllocFailed};
use thiserror::Error;

/// Why a call on a physical tree was not done.
#[derive(Clone, Copy, Debug, PartialEq, Eq, Error)]
pub enum PFault {
    /// A block was not read, or memory ran out.
    #[error("{0}")]
    Space(SpaceFault),
    /// This block has the sum that was kept of it, and is no node of the level that was wanted.
    #[error("no node")]
    NoNode {
        /// The place of the block.
        block: Paddr,
    },
}

impl From<SpaceFault> for PFault {
    ghost from_gives = { λ fault given. given ≡ OfSpace fault };

    fn from(fault: SpaceFault) -> Self {
        PFault::Space(fault)
    }
}

impl From<NoMemory> for PFault {
    ghost from_gives = { λ _ given. given ≡ OfSpace OutOfMemory };

    fn from(_: NoMemory) -> Self {
        PFault::Space(SpaceFault::NoMemory)
    }
}

impl From<AllocError> for PFault {
    ghost from_gives = { λ _ given. given ≡ OfSpace OutOfMemory };

    fn from(_: AllocError) -> Self {
        PFault::Space(SpaceFault::NoMemory)
    }
}

impl<T: Drop> From<AllocFailed<T>> for PFault {
    ghost from_gives = { λ _ given. given ≡ OfSpace OutOfMemory };

    fn from(_: AllocFailed<T>) -> Self {
        PFault::Space(SpaceFault::NoMemory)
    }
}
