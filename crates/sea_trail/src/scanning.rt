//! Reading the trail of a device.
ghost use Rattle.std.specs.Prelude.{◌≡◌, List, ℕ, [], ◌∷◌, ◌++◌, map, IfOk, IfErr, IfSome};
ghost use Rattle.sea_device.specs.Calls.{OnlyRead};
ghost use Rattle.sea_trail.specs.Faults.{BlamesDevice};
ghost use Rattle.sea_trail.specs.Parts.{IsTold};
ghost use Rattle.sea_trail.specs.Ranges.{HasFieldsOf, IsInRange};
ghost use Rattle.sea_trail.specs.Refusals.{Refuses};
ghost use Rattle.sea_trail.specs.Trail.{IsTrail};
ghost use Rattle.sea_trail.specs.declared.fault.ScanFault.TheVariants.{DeviceFault};

use crate::chain::read_part;
use crate::joining::{before_place, broken_at, read_closed, records_from};
use crate::superblock::read_segments;
use crate::survey::{Found, read_headers};
use crate::{ImageWhy, Part, ScanFault, Trail};
use sea_base::{NoMemory, Sequence};
use sea_device::Device;
use sea_segment::Header;
use std::alloc::Global;

/// The trail of a device, or why it has none: the first reason in the order of `ImageWhy`. It reads
/// the superblock, the headers, and each segment of the trail once.
pub fn scan<D: Device>(alloc: Global, device: &mut D) -> Result<Trail, ScanFault>
    ensures trail { IfOk result (λ trail. IfSome (D.contents device.old)
        (λ image. IsTrail image trail)) }
    ensures refused { IfErr result (λ fault. IfSome (D.contents device.old)
        (λ image. Refuses image fault)) }
    ensures range { IfOk result (λ trail. IsInRange trail (D.size device.old)) }
    ensures read { OnlyRead D.Device device.old device.new }
    ensures cause { BlamesDevice DeviceFault (D.faults device.old) (D.faults device.new) result }
{
    let segments = read_segments(alloc, device)?;
    let survey = read_headers(alloc, device, segments)?;
    let Some(header) = survey.newest else {
        return Err(ScanFault::Refused(ImageWhy::NoSegment));
    };
    let newest = read_part(alloc, device, &header)?;
    let tail = newest.last.tail;
    if tail.seq > newest.header.seq {
        return Err(ScanFault::Refused(ImageWhy::BadRecord { block: tail.place }));
    }
    let closed = read_closed(alloc, device, segments, &survey.found, &newest)?;
    let trail = trail_in(alloc, segments, &survey.found, closed, newest)?;
    Ok(trail)
}

// The trail of these segments, if they go on from one another and the tail is among them.
fn trail_in(
    alloc: Global,
    segments: u32,
    found: &[Found],
    closed: Vec<Part>,
    newest: Part,
) -> Result<Trail, ScanFault>
    ensures trail { IfOk result (λ trail. (image : List ℕ)
        → IsTold image segments found.now closed.items newest → IsTrail image trail) }
    ensures refused { IfErr result (λ fault. (image : List ℕ)
        → IsTold image segments found.now closed.items newest → Refuses image fault) }
    ensures segments { IfOk result (λ trail. trail.segments ≡ segments) }
    ensures fields { IfOk result (HasFieldsOf newest) }
    ensures no_device { result ≡ Err DeviceFault → ⊥ }
{
    let headers = headers_of(alloc, found)?;
    let active = newest.header.segment;
    let seq = newest.header.seq;
    let end = newest.end;
    let last = newest.last;
    let mut parts = closed;
    parts.push(newest)?;
    if let Some(block) = broken_at(&parts) {
        return Err(ScanFault::Refused(ImageWhy::BadRecord { block }));
    }
    let place = last.tail.place;
    let Some(before) = before_place(&parts[0], place) else {
        return Err(ScanFault::Refused(ImageWhy::BadRecord { block: place }));
    };
    let records = records_from(alloc, parts, before)?;
    Ok(Trail {
        segments,
        active,
        seq,
        end,
        mount: last.mount,
        commit: last.commit,
        last: last.digest,
        tail: last.tail,
        root: last.root,
        records: Sequence::from_vec(records),
        headers: Sequence::from_vec(headers),
    })
}

// The headers that were found.
fn headers_of(alloc: Global, found: &[Found]) -> Result<Vec<Header>, NoMemory>
    ensures { IfOk result (λ headers. headers.items ≡ map (λ f. f.header) found.now) }
{
    let headers = found.iter().map(|f| f.header).collect(alloc)?;
    Ok(headers)
}
