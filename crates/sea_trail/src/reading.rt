//! Blocks read from a device.
ghost use Rattle.std.specs.Prelude.{◌≡◌, ◌+◌, ◌*◌, ◌≤◌, length, slice_range, IfOk, IfSome};
ghost use Rattle.sea_device.specs.Calls.{OnlyRead};
ghost use Rattle.sea_trail.specs.Faults.{BlamesDevice};
ghost use Rattle.sea_trail.specs.Trail.{block_of};
ghost use Rattle.sea_trail.specs.declared.fault.ReadFault.TheVariants.{DeviceFault};

use crate::ReadFault;
use sea_base::{BLOCK_BYTES, Block, Paddr};
use sea_device::Device;
use std::alloc::Global;

/// The bytes of so many blocks from a place on.
pub fn read_blocks<D: Device>(
    alloc: Global,
    device: &mut D,
    at: u32,
    count: u32,
) -> Result<Vec<u8>, ReadFault>
    requires some { 1 ≤ count }
    requires few { count ≤ 2048 }
    requires within { at + count ≤ D.size device.old }
    ensures bytes { IfOk result (λ bytes. IfSome (D.contents device.old)
        (λ image. bytes.items ≡ slice_range image (4096 * at) (4096 * (at + count)))) }
    ensures len { IfOk result (λ bytes. length bytes.items ≡ 4096 * count) }
    ensures read { OnlyRead D.Device device.old device.new }
    ensures cause { BlamesDevice DeviceFault (D.faults device.old) (D.faults device.new) result }
{
    let mut bytes = Vec::new(alloc);
    bytes.resize(count as usize * BLOCK_BYTES, 0)?;
    device.read(Paddr(at), &mut bytes[..])?;
    Ok(bytes)
}

/// One block.
pub fn read_block<D: Device>(alloc: Global, device: &mut D, at: u32) -> Result<Block, ReadFault>
    requires { at + 1 ≤ D.size device.old }
    ensures block { IfOk result (λ block. IfSome (D.contents device.old)
        (λ image. block ≡ block_of image at)) }
    ensures read { OnlyRead D.Device device.old device.new }
    ensures cause { BlamesDevice DeviceFault (D.faults device.old) (D.faults device.new) result }
{
    let bytes = read_blocks(alloc, device, at, 1)?;
    let block = Block::from_vec(bytes)?;
    Ok(block)
}
