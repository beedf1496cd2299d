//! How many segments an image has, by its first block.
ghost use Rattle.std.specs.Prelude.{◌≡◌, ◌*◌, ◌≤◌, IfOk, IfErr, IfSome};
ghost use Rattle.sea_device.specs.Calls.{OnlyRead};
ghost use Rattle.sea_segment.specs.Superblock.{IsSegmentCount};
ghost use Rattle.sea_trail.specs.Faults.{BlamesDevice};
ghost use Rattle.sea_trail.specs.Parts.{HasFirst, IsFirstWhy};
ghost use Rattle.sea_trail.specs.Refusals.{Refuses};
ghost use Rattle.sea_trail.specs.Trail.{HasSegments, blocks_needed as needed};
ghost use Rattle.sea_trail.specs.declared.fault.ScanFault.TheVariants.{DeviceFault};

use crate::reading::read_block;
use crate::{ImageWhy, ScanFault, blocks_needed};
use sea_base::Block;
use sea_device::Device;
use sea_segment::{AnySuper, FORMAT, is_segment_count};
use std::alloc::Global;

/// The number of segments of a device's image.
pub fn read_segments<D: Device>(alloc: Global, device: &mut D) -> Result<u32, ScanFault>
    ensures segments { IfOk result (λ segments. IfSome (D.contents device.old)
        (λ image. HasSegments image segments)) }
    ensures room { IfOk result (λ segments. IsSegmentCount segments
        × (needed segments ≤ D.size device.old)) }
    ensures refused { IfErr result (λ fault. IfSome (D.contents device.old)
        (λ image. Refuses image fault)) }
    ensures read { OnlyRead D.Device device.old device.new }
    ensures cause { BlamesDevice DeviceFault (D.faults device.old) (D.faults device.new) result }
{
    let have = device.blocks();
    if have == 0 {
        return Err(ScanFault::Refused(ImageWhy::NoSuper));
    }
    let block = read_block(alloc, device, 0)?;
    let segments = segments_in(&block, have)?;
    Ok(segments)
}

// The number of segments, by the superblock of an image of so many blocks.
fn segments_in(block: &Block, have: u32) -> Result<u32, ImageWhy>
    ensures segments { IfOk result (λ segments. HasFirst block.now 1 segments
        × (needed segments ≤ have)) }
    ensures refused { IfErr result (IsFirstWhy block.now have) }
{
    let Some(found) = AnySuper::read(block) else {
        return Err(ImageWhy::NoSuper);
    };
    if found.format != FORMAT {
        return Err(ImageWhy::OldFormat {
            found: found.format,
        });
    }
    if !is_segment_count(found.segments) {
        return Err(ImageWhy::NoSuper);
    }
    let need = blocks_needed(found.segments);
    if have < need {
        return Err(ImageWhy::Short { have, need });
    }
    Ok(found.segments)
}
