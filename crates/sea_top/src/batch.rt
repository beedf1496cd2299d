//! Writing blocks behind a trail.
ghost use Rattle.std.specs.Prelude.{◌≡◌, ◌+◌, ◌*◌, ◌≤◌, List, ℕ, vec_len, OnOk, IfOk, IfSome, ◌<◌, ◌^◌};
ghost use Rattle.std.specs.Option.{option_map};
ghost use Rattle.sea_device.specs.Device.{IsWholeBlocks, overwritten};
ghost use Rattle.sea_top.specs.Batch.{batch};
ghost use Rattle.sea_top.specs.Crash.{ChangesBehind};
ghost use Rattle.sea_top.specs.Input.{Fails};

use crate::Refusal;
use sea_base::{BLOCK_BYTES, NoMemory, Paddr};
use sea_device::Device;

/// Writes whole blocks, with a block of zeros behind them where the device goes on, and syncs.
pub fn write_behind<D: Device>(
    device: &mut D,
    place: Paddr,
    bytes: Vec<u8>,
    rest: u32,
) -> Result<(), Refusal>
    requires whole { IsWholeBlocks (vec_len bytes) }
    requires short { vec_len bytes < 2 ^ 44 }
    requires within { 4096 * place.0 + vec_len bytes + 4096 * rest ≤ 4096 * D.size device.old }
    ensures written { OnOk result (D.contents device.new
        ≡ option_map (overwritten (4096 * place.0) (batch bytes.items rest)) (D.contents device.old)) }
    ensures stable { OnOk result ((c : List ℕ) → D.may_leave device.new c → IfSome (D.contents device.new) (λ b. c ≡ b)) }
    ensures behind { ChangesBehind (4096 * place.0) D.Device device.old device.new }
    ensures size { D.size device.new ≡ D.size device.old }
    ensures cause { Fails (D.faults device.old) (D.faults device.new) Refusal.DeviceFault result }
{
    let batch = padded(bytes, rest).map_err(|_| Refusal::NoMemory)?;
    device
        .write(place, &batch)
        .map_err(|_| Refusal::DeviceFault)?;
    device.sync().map_err(|_| Refusal::DeviceFault)
}

// The blocks, and one of zeros behind them where the device goes on.
fn padded(mut bytes: Vec<u8>, rest: u32) -> Result<Vec<u8>, NoMemory>
    requires { vec_len bytes < 2 ^ 44 }
    ensures { IfOk result (λ padded. padded.items ≡ batch bytes.items rest) }
{
    if rest == 0 {
        return Ok(bytes);
    }
    let len = bytes.len() + BLOCK_BYTES;
    bytes.resize(len, 0)?;
    Ok(bytes)
}
