//! Blocks written and made stable.
ghost use Rattle.std.specs.Prelude.{◌≡◌, ◌+◌, ◌*◌, ◌≤◌, length, OnOk};
ghost use Rattle.std.specs.Option.{option_map};
ghost use Rattle.sea_device.specs.Device.{IsWholeBlocks, Torn, overwritten};
ghost use Rattle.sea_journal.specs.Changes.{ChangesBy, CountsFaults, LeavesItself};

use sea_base::Paddr;
use sea_device::{Device, Failed};

/// Writes blocks from a place on, and syncs.
pub fn put_blocks<D: Device>(device: &mut D, at: Paddr, bytes: &[u8]) -> Result<(), Failed>
    requires whole { IsWholeBlocks (length bytes.now) }
    requires within { 4096 * at.0 + length bytes.now ≤ 4096 * D.size device.old }
    ensures written { OnOk result (D.contents device.new
        ≡ option_map (overwritten (4096 * at.0) bytes.now) (D.contents device.old)) }
    ensures alone { OnOk result (LeavesItself D.Device device.new) }
    ensures changes { ChangesBy (Torn (4096 * at.0) (length bytes.now)) D.Device
        device.old device.new }
    ensures cause { CountsFaults (D.faults device.old) (D.faults device.new) result }
{
    device.write(at, bytes)?;
    device.sync()
}
