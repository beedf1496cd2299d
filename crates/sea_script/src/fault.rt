//! Why a line is refused.
ghost use Rattle.std.specs.Prelude.{◌≡◌};
ghost use Rattle.sea_script.specs.declared.fault.LineFault.TheVariants.{NoMemory};

use crate::ScriptWhy;
use std::alloc::{AllocError, AllocFailed};

/// Why a line gives nothing.
#[derive(Clone, Copy, Debug, Drop)]
pub enum LineFault {
    /// Memory ran out.
    NoMemory,
    /// The line is refused.
    Why(ScriptWhy),
}

impl From<sea_base::NoMemory> for LineFault {
    ghost from_gives = { λ _ fault. fault ≡ NoMemory };

    fn from(_: sea_base::NoMemory) -> Self {
        LineFault::NoMemory
    }
}

impl From<AllocError> for LineFault {
    ghost from_gives = { λ _ fault. fault ≡ NoMemory };

    fn from(_: AllocError) -> Self {
        LineFault::NoMemory
    }
}

impl<T: Drop> From<AllocFailed<T>> for LineFault {
    ghost from_gives = { λ _ fault. fault ≡ NoMemory };

    fn from(_: AllocFailed<T>) -> Self {
        LineFault::NoMemory
    }
}
