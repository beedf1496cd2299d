//! Scripts: the text that asks for requests, and for the events that serve them.
ghost use Rattle.std.specs.Prelude.{◌≡◌, IfErr, IfOk, MatchResult};
ghost use Rattle.sea_script.specs.declared.script.Script.{Script};
ghost use Rattle.sea_script.specs.ReadingLines.{fault_at};
ghost use Rattle.sea_script.specs.Script.{IsRefusal, IsScript};

use crate::Events;
use crate::draft::Draft;
use crate::fault::LineFault;
use crate::parts::Parts;
use sea_history::Plan;
use std::alloc::Global;
use thiserror::Error;

/// The bytes of an input at most.
const INPUT_BYTES: usize = 67_108_864;

/// What a script asks for.
#[derive(Debug, Drop)]
pub struct Script {
    /// The requests of each client: as many clients as the greatest that is named, and 1 where
    /// none is.
    pub plan: Plan,
    /// The events of the schedule, of which there are none without one.
    pub events: Events,
}

/// Why a line is refused. Of the reasons that hold of a line the first in this order is given.
#[derive(Clone, Copy, Debug, PartialEq, Eq, Error)]
pub enum ScriptWhy {
    /// The input has more than 67,108,864 bytes.
    #[error("too long")]
    TooLong,
    /// A word is empty, or a byte is none of 32 to 126.
    #[error("bad text")]
    BadText,
    /// The line is `schedule`, and no schedule is wanted.
    #[error("schedule in run")]
    ScheduleInRun,
    /// A word behind `schedule` is no event.
    #[error("bad event")]
    BadEvent,
    /// The first word is no client.
    #[error("bad client")]
    BadClient,
    /// An operation has no such word, or another number of words.
    #[error("bad operation")]
    BadOp,
    /// A word is not the name of 1 to 64 bytes that the operation takes there.
    #[error("bad name")]
    BadName,
    /// A word is not the number that the operation takes there.
    #[error("bad number")]
    BadNumber,
    /// A word is not the bytes that the operation takes there.
    #[error("bad hex")]
    BadHex,
    /// There are more than 16 operations.
    #[error("too many operations")]
    TooManyOps,
    /// A number is beyond its limits.
    #[error("bad range")]
    BadRange,
    /// A value is too long.
    #[error("bad value")]
    BadValue,
    /// More than 64 blocks are written.
    #[error("too many blocks")]
    TooManyBlocks,
    /// The changes of keys weigh more than 32.
    #[error("too many keys")]
    TooManyKeys,
    /// The client has 10,000 requests already.
    #[error("too many requests")]
    TooManyRequests,
    /// With this request the reads weigh more than 2^30 bytes.
    #[error("too much read")]
    TooMuchRead,
}

/// Why an input is no script.
#[derive(Clone, Copy, Debug, PartialEq, Eq, Error)]
pub enum ScriptFault {
    /// Memory ran out.
    #[error("no memory")]
    NoMemory,
    /// This line is the first that is refused. Lines count from 1; line 0 stands for the whole
    /// input.
    #[error("line {line}: {why}")]
    Refused {
        /// The number of the line.
        line: u32,
        /// Why it is refused.
        why: ScriptWhy,
    },
}

/// The script that an input spells. A schedule may stand in it where one is wanted.
pub fn parse(alloc: Global, input: &[u8], scheduled: bool) -> Result<Script, ScriptFault>
    ensures ok { IfOk result (IsScript scheduled input.now) }
    // The one script that it spells.
    ensures only { (script : Script) → IsScript scheduled input.now script →
        MatchResult result (λ read. read ≡ script) (λ fault. fault ≡ ScriptFault.NoMemory) }
    // Refused exactly where it is no script, at the first line that is refused.
    ensures refused { IfErr result (IsRefusal scheduled input.now) }
{
    if input.len() > INPUT_BYTES {
        return Err(ScriptFault::Refused {
            line: 0,
            why: ScriptWhy::TooLong,
        });
    }
    let mut draft = Draft::new(alloc);
    let mut number = 0;
    let mut lines = Parts::new(b'\n', input);
    while let Some(line) = lines.next() {
        number += 1;
        if let Err(fault) = draft.add_line(alloc, scheduled, line) {
            return Err(at_line(fault, number));
        }
    }
    match draft.into_script(alloc) {
        Ok(script) => Ok(script),
        Err(_) => Err(ScriptFault::NoMemory),
    }
}

// The fault of an input whose line of this number has this fault.
fn at_line(fault: LineFault, line: u32) -> ScriptFault
    ensures { result ≡ fault_at line fault }
{
    match fault {
        LineFault::NoMemory => ScriptFault::NoMemory,
        LineFault::Why(why) => ScriptFault::Refused { line, why },
    }
}
