//! What takes operations back.
ghost use Rattle.std.specs.Prelude.{◌≡◌};
ghost use Rattle.sea_object.specs.Undo.{stop_at};

use crate::Why;
use crate::content::Earlier;
use crate::object::Object;
use crate::values::Former;
use std::alloc::{AllocError, AllocFailed};

/// What was replaced in a slot.
#[derive(Debug, Drop)]
pub(crate) enum Undo {
    /// Nothing was.
    Nothing,
    /// All that was in the slot.
    Slot(Option<Object>),
    /// Bytes of the object.
    Content(Earlier),
    /// Some of its attributes, or all.
    Attributes(Former),
    /// Some of its omap, or all.
    Omap(Former),
}

/// What an operation did to the slots.
#[derive(Debug, Drop)]
pub(crate) enum Step {
    /// Nothing.
    Unchanged,
    /// It changed what stands in the slot of its name.
    Changed(Undo),
    /// It added that slot.
    Added,
}

/// Why operations came to a halt.
#[derive(Clone, Copy, Debug)]
pub(crate) enum Halt {
    /// Memory ran out.
    NoMemory,
    /// An operation was refused.
    Refused(Why),
}

/// Why operations in order came to a stop.
#[derive(Clone, Copy, Debug)]
pub(crate) enum Stop {
    /// Memory ran out.
    NoMemory,
    /// The operation of this number was refused.
    Refused { op: u32, why: Why },
}

impl Halt {
    /// The stop that the halt of an operation of this number is.
    pub(crate) fn at(self, op: u32) -> Stop
        ensures { result ≡ stop_at op self }
    {
        match self {
            Halt::NoMemory => Stop::NoMemory,
            Halt::Refused(why) => Stop::Refused { op, why },
        }
    }
}

impl From<sea_base::NoMemory> for Stop {
    ghost use Rattle.sea_object.specs.declared.undo.Stop.TheVariants.{NoMemory};

    ghost from_gives = { λ _ stop. stop ≡ NoMemory };

    fn from(_: sea_base::NoMemory) -> Self {
        Stop::NoMemory
    }
}

impl From<sea_base::NoMemory> for Halt {
    ghost use Rattle.sea_object.specs.declared.undo.Halt.TheVariants.{NoMemory};

    ghost from_gives = { λ _ halt. halt ≡ NoMemory };

    fn from(_: sea_base::NoMemory) -> Self {
        Halt::NoMemory
    }
}

impl<T: Drop> From<AllocFailed<T>> for Halt {
    ghost use Rattle.sea_object.specs.declared.undo.Halt.TheVariants.{NoMemory};

    ghost from_gives = { λ _ halt. halt ≡ NoMemory };

    fn from(_: AllocFailed<T>) -> Self {
        Halt::NoMemory
    }
}

impl From<AllocError> for Halt {
    ghost use Rattle.sea_object.specs.declared.undo.Halt.TheVariants.{NoMemory};

    ghost from_gives = { λ _ halt. halt ≡ NoMemory };

    fn from(_: AllocError) -> Self {
        Halt::NoMemory
    }
}
