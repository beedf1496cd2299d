//! Reading the trail of a device, one record after the other.
ghost use Rattle.std.specs.Prelude.{◌≡◌, ◌+◌, ◌-◌, ◌*◌, ◌≤◌, ◌<◌, ◌^◌, ◌++◌, length, slice_range, vec_len, IfOk, IfSome, OnOk, MatchOption};
ghost use Rattle.std.specs.FinMap as map;
ghost use Rattle.sea_device.specs.Calls.{OnlyRead};
ghost use Rattle.sea_top.specs.Record.{BeginsWith, BeginsWithNone};
ghost use Rattle.sea_top.specs.Trail.{StandsAt, NoneStandsAt, Continues, NoneContinues, IsFound, HoldsRecord, BlamesDevice, IsTrailOf, after_pieces};
ghost use Rattle.sea_top.specs.declared.trail.TrailFault.TheVariants.{NoMemory as OutOfMemory, DeviceFault};

use crate::record::{BLOCKS_AT, DIGEST_AT};
use crate::{Piece, PlainRecord, RECORD_BLOCKS, read_record};
use sea_base::{BLOCK_BYTES, Digest, NoMemory, Paddr, digest_at, u32_at};
use sea_device::{Device, Failed};
use sea_plain::Objects;
use std::alloc::{AllocError, Global};
use thiserror::Error;

#[cfg(test)]
mod tests;

/// The end of the trail of a device, and the objects that it opens to.
#[derive(Debug, Drop)]
pub struct Trail {
    /// The block after the last record.
    pub end: u32,
    /// The number of the next record.
    pub commit: u64,
    /// The digest of the last record, zeros without one.
    pub previous: Digest,
    pub objects: Objects,
}

/// Why a trail could not be read.
#[derive(Clone, Copy, Debug, PartialEq, Eq, Error)]
pub enum TrailFault {
    #[error("no memory")]
    NoMemory,
    /// A call of the device failed.
    #[error("device fault")]
    DeviceFault,
}

impl From<NoMemory> for TrailFault {
    ghost from_gives = { λ _ fault. fault ≡ OutOfMemory };

    fn from(_: NoMemory) -> Self {
        TrailFault::NoMemory
    }
}

impl From<AllocError> for TrailFault {
    ghost from_gives = { λ _ fault. fault ≡ OutOfMemory };

    fn from(_: AllocError) -> Self {
        TrailFault::NoMemory
    }
}

impl From<Failed> for TrailFault {
    ghost from_gives = { λ _ fault. fault ≡ DeviceFault };

    fn from(_: Failed) -> Self {
        TrailFault::DeviceFault
    }
}

/// A record, its digest, and the blocks that it takes.
#[derive(Debug, Drop)]
struct Found {
    plain: PlainRecord,
    digest: Digest,
    blocks: u32,
}

/// Reads the trail of a device: its records from block 0 on, up to the first block where none goes on.
pub fn read_trail<D: Device>(alloc: Global, device: &mut D) -> Result<Trail, TrailFault>
    ensures trail { IfOk result (λ trail. IfSome (D.contents device.old) (IsTrailOf trail)) }
    ensures within { IfOk result (λ trail. trail.end ≤ D.size device.old) }
    ensures next { IfOk result (λ trail. (1 ≤ trail.commit) × (trail.commit ≤ trail.end + 1) × (length trail.previous.0 ≡ 32)) }
    ensures read { OnlyRead D.Device device.old device.new }
    ensures cause { BlamesDevice (D.faults device.old) (D.faults device.new) result }
{
    let blocks = device.blocks();
    let mut trail = Trail {
        end: 0,
        commit: 1,
        previous: Digest([0; 32]),
        objects: Objects::new(alloc),
    };
    while let Some(found) = next_record(alloc, device, &trail)? {
        lay_pieces(&mut trail.objects, found.plain.pieces.items())?;
        trail.end += found.blocks;
        trail.commit += 1;
        trail.previous = found.digest;
    }
    Ok(trail)
}

// Lays pieces over objects, in order.
fn lay_pieces(objects: &mut Objects, pieces: &[Piece]) -> Result<(), NoMemory>
    ensures { OnOk result (objects.new ≡ after_pieces pieces.now objects.old) }
{
    for piece in pieces {
        objects.lay(&piece.name, piece.offset, piece.bytes.bytes())?;
    }
    Ok(())
}

// The record with which the trail goes on.
fn next_record<D: Device>(
    alloc: Global,
    device: &mut D,
    trail: &Trail,
) -> Result<Option<Found>, TrailFault>
    ensures found { IfOk result (λ found. IfSome (D.contents device.old) (λ image. MatchOption found (NoneContinues image trail.now.end trail.now.commit trail.now.previous.0) (λ f. Continues image trail.now.end trail.now.commit trail.now.previous.0 f.plain))) }
    ensures parts { IfOk result (λ found. IfSome found (λ f. IsFound f × (trail.now.end + f.blocks ≤ D.size device.old))) }
    ensures read { OnlyRead D.Device device.old device.new }
    ensures cause { BlamesDevice (D.faults device.old) (D.faults device.new) result }
{
    let Some(bytes) = record_bytes(alloc, device, trail.end)? else {
        return Ok(None);
    };
    let Some(found) = found_in(alloc, &bytes)? else {
        return Ok(None);
    };
    if found.plain.commit.0 == trail.commit && found.plain.previous == trail.previous {
        Ok(Some(found))
    } else {
        Ok(None)
    }
}

// The record that whole blocks begin with.
fn found_in(alloc: Global, bytes: &[u8]) -> Result<Option<Found>, NoMemory>
    requires { 4096 ≤ length bytes.now }
    ensures found { IfOk result (λ found. MatchOption found (BeginsWithNone bytes.now) (λ f. BeginsWith bytes.now f.plain × IsFound f)) }
    ensures within { IfOk result (λ found. IfSome found (λ f. 4096 * f.blocks ≤ length bytes.now)) }
{
    let Some(plain) = read_record(alloc, bytes)? else {
        return Ok(None);
    };
    Ok(Some(Found {
        plain,
        digest: digest_at(bytes, DIGEST_AT),
        blocks: u32_at(bytes, BLOCKS_AT),
    }))
}

// The blocks of the record that stands at a place, by the number of blocks that its first block names.
fn record_bytes<D: Device>(
    alloc: Global,
    device: &mut D,
    place: u32,
) -> Result<Option<Vec<u8>>, TrailFault>
    ensures bytes { IfOk result (λ found. IfSome (D.contents device.old) (λ image. MatchOption found (NoneStandsAt image place) (λ bytes. HoldsRecord image place bytes.items))) }
    ensures some { IfOk result (λ found. IfSome found (λ bytes. 4096 ≤ length bytes.items)) }
    ensures within { IfOk result (λ found. IfSome found (λ bytes. 4096 * place + length bytes.items ≤ 4096 * D.size device.old)) }
    ensures read { OnlyRead D.Device device.old device.new }
    ensures cause { BlamesDevice (D.faults device.old) (D.faults device.new) result }
{
    let left = device.blocks().saturating_sub(place);
    if left == 0 {
        return Ok(None);
    }
    let mut bytes = Vec::new(alloc);
    append_blocks(device, place, 1, &mut bytes)?;
    let count = u32_at(&bytes, BLOCKS_AT);
    if count == 0 || count > RECORD_BLOCKS || count > left {
        return Ok(None);
    }
    if count > 1 {
        append_blocks(device, place + 1, count - 1, &mut bytes)?;
    }
    Ok(Some(bytes))
}

// Appends blocks of the device to bytes.
fn append_blocks<D: Device>(
    device: &mut D,
    place: u32,
    count: u32,
    bytes: &mut Vec<u8>,
) -> Result<(), TrailFault>
    requires some { 1 ≤ count }
    requires within { place + count ≤ D.size device.old }
    requires few { length bytes.old.items ≤ 4096 }
    ensures bytes { OnOk result (IfSome (D.contents device.old) (λ image. bytes.new.items ≡ bytes.old.items ++ slice_range image (4096 * place) (4096 * (place + count)))) }
    ensures len { OnOk result (length bytes.new.items ≡ length bytes.old.items + 4096 * count) }
    ensures read { OnlyRead D.Device device.old device.new }
    ensures cause { BlamesDevice (D.faults device.old) (D.faults device.new) result }
{
    let from = bytes.len();
    bytes.resize(from + count as usize * BLOCK_BYTES, 0)?;
    device.read(Paddr(place), &mut bytes[from..])?;
    Ok(())
}
