//! Reading an input to its end, as a script.
ghost use Rattle.std.specs.Prelude.{◌≡◌, ◌≤◌, ℕ, List, Some, OnOk, IfOk, IfErr};
ghost use Rattle.sea_script.specs.Script.{IsScript};
ghost use Rattle.sea_script.specs.declared.script.Script.{Script};
ghost use Rattle.sea_streams.specs.Streams.{IsReadOut, IsSourceFault, IsScriptOf, IsNoScript, IsOnly};

use crate::ReadFault;
use sea_device::Source;
use sea_script::{Script, parse};
use std::alloc::Global;

/// One byte more than an input may have.
const BUDGET: usize = 67_108_865;

const BUFFER_BYTES: usize = 4096;

/// Reads an input to its end, and the script that it spells. A schedule may stand in it where one
/// is wanted. An input that is too long is read to one byte past its limit.
pub fn read_script<I: Source>(
    alloc: Global,
    input: &mut I,
    scheduled: bool,
) -> Result<Script, ReadFault>
    ensures script { IfOk result
        (IsScriptOf scheduled (I.remaining input.old) (I.remaining input.new)) }
    ensures only { (bytes : List ℕ) (script : Script) → I.remaining input.old ≡ Some bytes
        → IsScript scheduled bytes script → IsOnly script result }
    ensures refused { IfErr result (IsNoScript scheduled (I.remaining input.old)
        (I.faults input.old) (I.faults input.new)) }
    ensures quiet { OnOk result (I.faults input.new ≡ I.faults input.old) }
    ensures later { I.faults input.old ≤ I.faults input.new }
{
    let bytes = read_all(alloc, input)?;
    let script = parse(alloc, &bytes, scheduled)?;
    Ok(script)
}

// The bytes of an input: all of them, or one byte more than it may have.
fn read_all<I: Source>(alloc: Global, input: &mut I) -> Result<Vec<u8>, ReadFault>
    ensures bytes { IfOk result (λ bytes. IsReadOut bytes.items
        (I.remaining input.old) (I.remaining input.new)) }
    ensures fault { IfErr result (IsSourceFault (I.faults input.old) (I.faults input.new)) }
    ensures quiet { OnOk result (I.faults input.new ≡ I.faults input.old) }
    ensures later { I.faults input.old ≤ I.faults input.new }
{
    let mut bytes = Vec::new(alloc);
    let mut buffer = [0u8; BUFFER_BYTES];
    while bytes.len() < BUDGET {
        let room = BUFFER_BYTES.min(BUDGET - bytes.len());
        let count = input
            .take(&mut buffer[..room])
            .map_err(|_| ReadFault::Source)?;
        if count == 0 {
            return Ok(bytes);
        }
        bytes
            .extend_from_slice(&buffer[..count])
            .map_err(|_| ReadFault::NoMemory)?;
    }
    Ok(bytes)
}
