//! How a command ends.
ghost use Rattle.std.specs.Prelude.{◌≡◌};
ghost use Rattle.sea_top.specs.Refusal.{status_of};

use sea_plain_script::ScriptWhy;

/// The number that a command ends with.
#[derive(Clone, Copy, Debug, PartialEq, Eq)]
pub struct Status(pub u8);

/// Why a command doesn't end with status 0.
#[derive(Clone, Copy, Debug, PartialEq, Eq)]
pub enum Refusal {
    /// The words are none of the listed forms.
    Usage,
    /// The input is no script. Lines count from 1; 0 stands for an input that is too long.
    Script { line: u32, why: ScriptWhy },
    /// A call of the device failed.
    DeviceFault,
    /// Memory ran out.
    NoMemory,
    /// A call of the source failed.
    ReadFault,
}

impl Status {
    /// Nothing was refused.
    pub const DONE: Status = Status(0);

    /// A call of the sink failed.
    pub const WRITE_FAULT: Status = Status(7);
}

impl Refusal {
    /// The status of this refusal.
    pub fn status(self) -> Status
        ensures { result.0 ≡ status_of self }
    {
        Status(match self {
            Refusal::Usage => 1,
            Refusal::Script { .. } => 2,
            Refusal::DeviceFault => 3,
            Refusal::NoMemory => 5,
            Refusal::ReadFault => 6,
        })
    }
}
