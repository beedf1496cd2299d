//! Why a line asks for nothing.
ghost use Rattle.std.specs.Prelude.{◌≡◌};
ghost use Rattle.sea_plain_script.specs.declared.script.fault.LineFault.TheVariants.{NoMemory};
ghost use Rattle.sea_plain_script.specs.ScriptReading.{fault_at};

use crate::{ScriptFault, ScriptWhy};
use std::alloc::{AllocError, AllocFailed};

/// Why a line asks for no request.
#[derive(Clone, Copy, Debug, Drop)]
pub enum LineFault {
    /// Memory ran out.
    NoMemory,
    /// The line is of another form.
    Why(ScriptWhy),
}

impl LineFault {
    /// The fault of an input whose line of this number has this fault.
    pub fn at_line(self, line: u32) -> ScriptFault
        ensures { result ≡ fault_at line self }
    {
        match self {
            LineFault::NoMemory => ScriptFault::NoMemory,
            LineFault::Why(why) => ScriptFault::Refused { line, why },
        }
    }
}

impl From<sea_base::NoMemory> for LineFault {
    ghost from_gives = { λ _ fault. fault ≡ NoMemory };

    fn from(_: sea_base::NoMemory) -> Self {
        LineFault::NoMemory
    }
}

impl From<AllocError> for LineFault {
    ghost from_gives = { λ _ fault. fault ≡ NoMemory };

    fn from(_: AllocError) -> Self {
        LineFault::NoMemory
    }
}

impl<T: Drop> From<AllocFailed<T>> for LineFault {
    ghost from_gives = { λ _ fault. fault ≡ NoMemory };

    fn from(_: AllocFailed<T>) -> Self {
        LineFault::NoMemory
    }
}
