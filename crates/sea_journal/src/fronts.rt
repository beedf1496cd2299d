//! Blocks that have to be zeros before an image is made.
ghost use Rattle.std.specs.Prelude.{◌≡◌, ℕ, ◌+◌, ◌*◌, ◌<◌, ◌≤◌, ◌↔◌, length, IsTrue, IfOk, IfSome, MatchOption};
ghost use Rattle.sea_device.specs.Calls.{OnlyRead};
ghost use Rattle.sea_trail.specs.Trail.{blocks_needed};
ghost use Rattle.sea_journal.specs.Mkfs.{AllBlank, IsBlank, IsLeastFilled};
ghost use Rattle.sea_journal.specs.Changes.{CountsFaults};

use crate::SEGMENT_BLOCKS;
use sea_base::{Paddr, is_zero};
use sea_device::{Device, Failed};

/// The least of block 0 and the segments' first blocks that isn't all zeros.
pub fn first_filled<D: Device>(
    device: &mut D,
    segments: u32,
    buffer: &mut [u8],
) -> Result<Option<Paddr>, Failed>
    requires few { segments ≤ 8191 }
    requires fits { blocks_needed segments ≤ D.size device.old }
    requires buffer { length buffer.old ≡ 4096 }
    ensures found { IfOk result (λ found. IfSome (D.contents device.old) (λ image.
        MatchOption found (AllBlank segments image) (λ at. IsLeastFilled segments at.0 image))) }
    ensures read { OnlyRead D.Device device.old device.new }
    ensures cause { CountsFaults (D.faults device.old) (D.faults device.new) result }
{
    if !is_blank(device, Paddr(0), buffer)? {
        return Ok(Some(Paddr(0)));
    }
    for segment in 0..segments {
        let at = Paddr(1 + SEGMENT_BLOCKS * segment);
        if !is_blank(device, at, buffer)? {
            return Ok(Some(at));
        }
    }
    Ok(None)
}

// Whether a block is all zeros.
fn is_blank<D: Device>(device: &mut D, at: Paddr, buffer: &mut [u8]) -> Result<bool, Failed>
    requires within { at.0 < D.size device.old }
    requires buffer { length buffer.old ≡ 4096 }
    ensures exact { IfOk result (λ blank. IfSome (D.contents device.old) (λ image.
        IsTrue blank ↔ IsBlank image at.0)) }
    ensures read { OnlyRead D.Device device.old device.new }
    ensures cause { CountsFaults (D.faults device.old) (D.faults device.new) result }
{
    device.read(at, buffer)?;
    Ok(is_zero(buffer))
}
