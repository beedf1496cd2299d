//! Making a fresh image.
ghost use Rattle.std.specs.Prelude.{◌≡◌, ◌≤◌, length, IfErr, IfSome, OnOk};
ghost use Rattle.std.specs.Option.{option_map};
ghost use Rattle.sea_device.specs.Calls.{OnlyRead};
ghost use Rattle.sea_device.specs.Device.{overwritten};
ghost use Rattle.sea_segment.specs.Superblock.{IsSegmentCount};
ghost use Rattle.sea_segment.specs.Header.{IsHeader};
ghost use Rattle.sea_journal.specs.Mkfs.{IsFresh, IsRefused, IsFoundUnfit, HasFreshTrail, first_header};
ghost use Rattle.sea_journal.specs.Changes.{ChangesBy, InBlocks, CountsFaults, LeavesItself};
ghost use Rattle.sea_journal.specs.declared.fresh.MkfsFault.TheVariants.{NoMemory as OutOfMemory, DeviceFault};

use crate::SEGMENT_BLOCKS;
use crate::fronts::first_filled;
use crate::put::put_blocks;
use sea_base::{
    BLOCK_BYTES, Block, Commit, Digest, Laddr, NoMemory, PRoot, Paddr, Root, Sum, Tail,
};
use sea_device::{Device, Failed};
use sea_segment::{Header, Super};
use std::alloc::{AllocError, Global};
use thiserror::Error;

/// Why no image was made.
#[derive(Clone, Copy, Debug, PartialEq, Eq, Error)]
pub enum MkfsFault {
    /// The device has fewer blocks than the segments need.
    #[error("short")]
    Short { have: u32, need: u32 },
    /// A call of the device failed.
    #[error("device fault")]
    DeviceFault,
    /// The least of block 0 and the segments' first blocks that isn't all zeros.
    #[error("not empty")]
    NotEmpty { block: Paddr },
    /// Memory ran out.
    #[error("no memory")]
    NoMemory,
}

impl From<NoMemory> for MkfsFault {
    ghost from_gives = { λ _ fault. fault ≡ OutOfMemory };

    fn from(_: NoMemory) -> Self {
        MkfsFault::NoMemory
    }
}

impl From<AllocError> for MkfsFault {
    ghost from_gives = { λ _ fault. fault ≡ OutOfMemory };

    fn from(_: AllocError) -> Self {
        MkfsFault::NoMemory
    }
}

impl From<Failed> for MkfsFault {
    ghost from_gives = { λ _ fault. fault ≡ DeviceFault };

    fn from(_: Failed) -> Self {
        MkfsFault::DeviceFault
    }
}

const EMPTY_TREE: PRoot = PRoot {
    at: Paddr(0),
    height: 0,
    sum: Sum(0),
};

/// Makes an image of so many segments, 6 to 8,191, without a record. The device has to be empty: block
/// 0 and the segments' first blocks are zeros. The header of segment 0 is written and synced, and then
/// the superblock is.
pub fn mkfs<D: Device>(alloc: Global, device: &mut D, segments: u32) -> Result<(), MkfsFault>
    requires { IsSegmentCount segments }
    ensures made { OnOk result (IsFresh segments D.Device device.old device.new) }
    // The image has the trail without records, given that none stood at block 2.
    ensures trail { OnOk result (IfSome (D.contents device.old) (λ old.
        IfSome (D.contents device.new) (HasFreshTrail segments old))) }
    ensures refused { IfErr result (IsRefused segments (D.size device.old)
        (D.faults device.old) (D.faults device.new) (D.contents device.old)) }
    ensures untouched { IfErr result (λ fault. IsFoundUnfit fault
        → OnlyRead D.Device device.old device.new) }
    ensures within { ChangesBy (InBlocks 0 2) D.Device device.old device.new }
{
    let have = device.blocks();
    let need = 1 + SEGMENT_BLOCKS * segments;
    if have < need {
        return Err(MkfsFault::Short { have, need });
    }
    let superblock = Super { segments }.spell(alloc)?;
    let header = first_header().spell(alloc)?;
    let mut buffer = vec![in alloc; 0; BLOCK_BYTES]?;
    if let Some(block) = first_filled(device, segments, &mut buffer)? {
        return Err(MkfsFault::NotEmpty { block });
    }
    write_fresh(device, &header, &superblock)?;
    Ok(())
}

// The first header of a fresh image.
fn first_header() -> Header
    ensures is { result ≡ first_header }
    ensures fits { IsHeader result }
{
    Header {
        segment: 0,
        mount: 0,
        seq: 1,
        commit: Commit(0),
        tail: Tail {
            seq: 1,
            place: Paddr(2),
        },
        root: Root {
            lba: EMPTY_TREE,
            owners: EMPTY_TREE,
            next: Laddr(2),
        },
        prev: Digest([0; 32]),
    }
}

// Writes and syncs the header, and then the superblock.
fn write_fresh<D: Device>(device: &mut D, header: &Block, superblock: &Block) -> Result<(), Failed>
    requires { 2 ≤ D.size device.old }
    ensures written { OnOk result (D.contents device.new ≡ option_map
        (λ b. overwritten 0 superblock.now (overwritten 4096 header.now b)) (D.contents device.old)) }
    ensures alone { OnOk result (LeavesItself D.Device device.new) }
    ensures blocks { OnOk result ((length superblock.now ≡ 4096) × (length header.now ≡ 4096)) }
    ensures within { ChangesBy (InBlocks 0 2) D.Device device.old device.new }
    ensures cause { CountsFaults (D.faults device.old) (D.faults device.new) result }
{
    put_blocks(device, Paddr(1), header.bytes())?;
    put_blocks(device, Paddr(0), superblock.bytes())
}
