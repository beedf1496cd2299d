//! What is wrong with a store.
ghost use Rattle.std.specs.Prelude.{◌≡◌};
ghost use Rattle.sea_formed.specs.declared.wrong.Wrong.TheVariants.{NoMemory as OutOfMemory};

use sea_base::NoMemory;
use std::alloc::{AllocError, AllocFailed};
use thiserror::Error;

/// Why a store is not found well formed.
#[derive(Clone, Copy, Debug, Error)]
pub enum Wrong {
    /// Memory ran out.
    #[error("no memory")]
    NoMemory,
    /// It breaks this rule.
    #[error("{0}")]
    Breaks(&'static str),
}

impl From<NoMemory> for Wrong {
    ghost from_gives = { λ _ wrong. wrong ≡ OutOfMemory };

    fn from(_: NoMemory) -> Self {
        Wrong::NoMemory
    }
}

impl From<AllocError> for Wrong {
    ghost from_gives = { λ _ wrong. wrong ≡ OutOfMemory };

    fn from(_: AllocError) -> Self {
        Wrong::NoMemory
    }
}

impl<T: Drop> From<AllocFailed<T>> for Wrong {
    ghost from_gives = { λ _ wrong. wrong ≡ OutOfMemory };

    fn from(_: AllocFailed<T>) -> Self {
        Wrong::NoMemory
    }
}
