//! Reading an input to its end, and putting out a text.
ghost use Rattle.std.specs.Prelude.{◌≡◌, ℕ, ◌<◌, ◌≤◌, ◌++◌, List, IfSome, IfOk, OnOk, IfErr, OnErr, length};
ghost use Rattle.std.specs.Option.{option_map};
ghost use Rattle.sea_device.specs.Device.{HasCause};
ghost use Rattle.sea_top.specs.Input.{IsReadOut, Fails, TakesFront};

use crate::Refusal;
use sea_device::{Failed, Sink, Source};
use std::alloc::Global;

/// One byte more than an input may have.
const BUDGET: usize = 67_108_865;

const BUFFER_BYTES: usize = 4096;

/// The bytes of an input: all of them, or one byte more than it may have.
pub fn read_all<I: Source>(alloc: Global, input: &mut I) -> Result<Vec<u8>, Refusal>
    ensures bytes { IfOk result (λ bytes. IsReadOut bytes.items (I.remaining input.old) (I.remaining input.new)) }
    ensures cause { Fails (I.faults input.old) (I.faults input.new) Refusal.ReadFault result }
{
    let mut bytes = Vec::new(alloc);
    let mut buffer = [0u8; BUFFER_BYTES];
    while bytes.len() < BUDGET {
        let room = BUFFER_BYTES.min(BUDGET - bytes.len());
        let count = input
            .take(&mut buffer[..room])
            .map_err(|_| Refusal::ReadFault)?;
        if count == 0 {
            return Ok(bytes);
        }
        bytes
            .extend_from_slice(&buffer[..count])
            .map_err(|_| Refusal::NoMemory)?;
    }
    Ok(bytes)
}

/// Puts all bytes out. A sink that fails has taken a front of them.
pub fn put_all<O: Sink>(out: &mut O, bytes: &[u8]) -> Result<(), Failed>
    ensures ok { OnOk result (O.taken out.new ≡ option_map (λ taken. taken ++ bytes.now) (O.taken out.old)) }
    ensures err { OnErr result (TakesFront bytes.now (O.taken out.old) (O.taken out.new)) }
    ensures cause { HasCause (O.faults out.old) (O.faults out.new) result }
{
    let mut rest = bytes;
    while !rest.is_empty() {
        let count = out.put(rest)?;
        rest = &rest[count..];
    }
    Ok(())
}
