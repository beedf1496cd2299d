//! Why an input gave no script, or a text was not put out.
ghost use Rattle.std.specs.Prelude.{◌≡◌};
ghost use Rattle.sea_streams.specs.Streams.{read_fault};
ghost use Rattle.sea_streams.specs.declared.fault.PrintFault.TheVariants as print;

use sea_base::NoMemory;
use sea_device::Failed;
use sea_script::{ScriptFault, ScriptWhy};
use std::alloc::AllocError;
use thiserror::Error;

/// Why an input gave no script.
#[derive(Clone, Copy, Debug, PartialEq, Eq, Error)]
pub enum ReadFault {
    /// Memory ran out.
    #[error("no memory")]
    NoMemory,
    /// The source failed.
    #[error("read fault")]
    Source,
    /// It is no script: this is the first line that is refused, and why.
    #[error("script {line} {why}")]
    Script {
        /// The number of the line, from 1 on; 0 stands for the whole input.
        line: u32,
        /// Why it is refused.
        why: ScriptWhy,
    },
}

impl From<ScriptFault> for ReadFault {
    ghost from_gives = { λ fault given. given ≡ read_fault fault };

    fn from(fault: ScriptFault) -> Self {
        match fault {
            ScriptFault::NoMemory => ReadFault::NoMemory,
            ScriptFault::Refused { line, why } => ReadFault::Script { line, why },
        }
    }
}

/// Why a text was not put out whole.
#[derive(Clone, Copy, Debug, PartialEq, Eq, Error)]
pub enum PrintFault {
    /// Memory ran out.
    #[error("no memory")]
    NoMemory,
    /// The sink failed.
    #[error("write fault")]
    Sink,
}

impl From<NoMemory> for PrintFault {
    ghost from_gives = { λ _ given. given ≡ print.NoMemory };

    fn from(_: NoMemory) -> Self {
        PrintFault::NoMemory
    }
}

impl From<AllocError> for PrintFault {
    ghost from_gives = { λ _ given. given ≡ print.NoMemory };

    fn from(_: AllocError) -> Self {
        PrintFault::NoMemory
    }
}

impl From<Failed> for PrintFault {
    ghost from_gives = { λ _ given. given ≡ print.Sink };

    fn from(_: Failed) -> Self {
        PrintFault::Sink
    }
}
