//! Segments one after the other.
ghost use Rattle.std.specs.Prelude.{◌≡◌, ◌+◌, ◌<◌, ◌≤◌, ◌↔◌, List, ◌++◌, length, IfOk, IfErr};
ghost use Rattle.std.specs.Prelude.{IfSome, IsTrue, MatchOption, drop};
ghost use Rattle.sea_device.specs.Calls.{OnlyRead};
ghost use Rattle.sea_trail.specs.Faults.{BlamesDevice};
ghost use Rattle.sea_trail.specs.Parts.{AreFit, AreFound, IsPlace, IsPlaced, HasNoPlace};
ghost use Rattle.sea_trail.specs.Refusals.{Refuses, IsBreak};
ghost use Rattle.sea_trail.specs.Trail.{AreLinked, AreClosed, Follows, IsOpen, blocks_needed};
ghost use Rattle.sea_trail.specs.Trail.{records_in};
ghost use Rattle.sea_trail.specs.declared.fault.ScanFault.TheVariants.{DeviceFault};

use crate::chain::read_part;
use crate::survey::{Found, numbered};
use crate::{ImageWhy, Link, Part, ScanFault};
use sea_base::{NoMemory, Paddr};
use sea_device::Device;
use sea_record::Record;
use sea_segment::Header;
use std::alloc::Global;

/// Reads the closed segments from the tail's on, up to the open one.
pub fn read_closed<D: Device>(
    alloc: Global,
    device: &mut D,
    segments: u32,
    found: &[Found],
    newest: &Part,
) -> Result<Vec<Part>, ScanFault>
    requires few { (segments ≤ 8191) × (blocks_needed segments ≤ D.size device.old) }
    requires behind { newest.now.last.tail.seq ≤ newest.now.header.seq }
    requires fit { AreFit segments found.now }
    requires found { IfSome (D.contents device.old) (λ image.
        AreFound image 0 segments found.now × IsOpen image segments newest.now) }
    ensures closed { IfOk result (λ parts. IfSome (D.contents device.old)
        (λ image. AreClosed image segments newest.now parts.items)) }
    ensures refused { IfErr result (λ fault. IfSome (D.contents device.old)
        (λ image. Refuses image fault)) }
    ensures read { OnlyRead D.Device device.old device.new }
    ensures cause { BlamesDevice DeviceFault (D.faults device.old) (D.faults device.new) result }
{
    let mut parts = Vec::new(alloc);
    for seq in newest.last.tail.seq..newest.header.seq {
        let Some(header) = numbered(found, seq) else {
            return Err(ScanFault::Refused(ImageWhy::MissingSegment { seq }));
        };
        let part = read_part(alloc, device, &header)?;
        parts.push(part)?;
    }
    Ok(parts)
}

/// The end of the first segment from which the next doesn't go on.
pub fn broken_at(parts: &[Part]) -> Option<Paddr>
    ensures { MatchOption result (AreLinked parts.now) (λ block. IsBreak parts.now block.0) }
{
    for i in 1..parts.len() {
        if !follows(&parts[i - 1].last, &parts[i].header) {
            return Some(parts[i - 1].end);
        }
    }
    None
}

// Whether a header goes on from a segment with this last link.
fn follows(link: &Link, header: &Header) -> bool
    ensures { IsTrue result ↔ Follows link.now header.now }
{
    header.prev == link.digest && header.commit == link.commit && header.mount == link.mount
}

/// How many records of a segment stand before a place of its chain.
pub fn before_place(part: &Part, place: Paddr) -> Option<usize>
    ensures { IsPlaced part.now
        → MatchOption result (HasNoPlace part.now place.0) (IsPlace part.now place.0) }
{
    for (i, entry) in part.records.items().iter().enumerate() {
        if entry.place == place {
            return Some(i);
        }
    }
    if place == part.end {
        return Some(part.records.items().len());
    }
    None
}

/// The records of segments, in order, but for so many at first.
pub fn records_from(alloc: Global, parts: Vec<Part>, at: usize) -> Result<Vec<Record>, NoMemory>
    ensures { IfOk result (λ records. records.items ≡ drop at (records_in parts.items)) }
{
    let all = all_records(alloc, parts)?;
    let records = all.into_iter().skip(at).collect(alloc)?;
    Ok(records)
}

// The records of segments, in order.
fn all_records(alloc: Global, parts: Vec<Part>) -> Result<Vec<Record>, NoMemory>
    ensures { IfOk result (λ records. records.items ≡ records_in parts.items) }
{
    let mut records = Vec::new(alloc);
    for part in parts {
        let mut more = part.records.into_vec();
        records.append(&mut more)?;
    }
    Ok(records)
}
