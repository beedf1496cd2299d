//! Reading the plan of an input.
ghost use Rattle.std.specs.Prelude.{◌≡◌, ◌≤◌, IfOk, IfErr};
ghost use Rattle.sea_top.specs.Planning.{IsNoPlan, IsPlanOf, refused_script};

use crate::Refusal;
use crate::input::read_all;
use sea_device::Source;
use sea_plain_script::{Plan, ScriptFault, read_script};
use std::alloc::Global;

impl From<ScriptFault> for Refusal {
    ghost from_gives = { λ fault refusal. refusal ≡ refused_script fault };

    fn from(fault: ScriptFault) -> Self {
        match fault {
            ScriptFault::NoMemory => Refusal::NoMemory,
            ScriptFault::Refused { line, why } => Refusal::Script { line, why },
        }
    }
}

/// Reads an input to its end, and the plan that it spells.
pub fn read_plan<I: Source>(alloc: Global, input: &mut I) -> Result<Plan, Refusal>
    ensures plan { IfOk result (IsPlanOf (I.remaining input.old) (I.remaining input.new)) }
    ensures refused { IfErr result (IsNoPlan (I.remaining input.old) (I.faults input.old) (I.faults input.new)) }
    ensures later { I.faults input.old ≤ I.faults input.new }
{
    let bytes = read_all(alloc, input)?;
    let plan = read_script(alloc, &bytes)?;
    Ok(plan)
}
