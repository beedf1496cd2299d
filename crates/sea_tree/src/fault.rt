//! Why a call on a tree was not done.
ghost use Rattle.std.specs.Prelude.{◌≡◌};
ghost use Rattle.sea_base.specs.declared.space.SpaceFault.TheVariants.{NoMemory as OutOfMemory};
ghost use Rattle.sea_tree.specs.declared.fault.TreeFault.TheVariants.{Space as OfSpace};

use sea_base::{Laddr, NoMemory, SpaceFault};
use std::alloc::AllocFailed;
use thiserror::Error;

/// Why a call on a tree was not done. The transaction is given up then.
#[derive(Clone, Copy, Debug, PartialEq, Eq, Error)]
pub enum TreeFault {
    /// A call of the space failed, or memory ran out.
    #[error("{0}")]
    Space(SpaceFault),
    /// The block at this address is the first on the path that is no node in its place.
    #[error("broken")]
    Broken {
        /// The address of the block.
        at: Laddr,
    },
}

impl From<SpaceFault> for TreeFault {
    ghost from_gives = { λ fault given. given ≡ OfSpace fault };

    fn from(fault: SpaceFault) -> Self {
        TreeFault::Space(fault)
    }
}

impl From<NoMemory> for TreeFault {
    ghost from_gives = { λ _ given. given ≡ OfSpace OutOfMemory };

    fn from(_: NoMemory) -> Self {
        TreeFault::Space(SpaceFault::NoMemory)
    }
}

impl<T: Drop> From<AllocFailed<T>> for TreeFault {
    ghost from_gives = { λ _ given. given ≡ OfSpace OutOfMemory };

    fn from(_: AllocFailed<T>) -> Self {
        TreeFault::Space(SpaceFault::NoMemory)
    }
}
