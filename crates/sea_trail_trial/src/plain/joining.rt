//! Segments that go on from one another.
ghost use Rattle.std.specs.Prelude.{◌≡◌, ◌↔◌, ◌++◌, ◌∷◌, [], length, drop, IfOk, IsTrue, MatchOption, MatchResult};
ghost use Rattle.sea_trail.specs.Parts.{IsPlace, IsPlaced, HasNoPlace};
ghost use Rattle.sea_trail.specs.Refusals.{IsBreak, Refuses};
ghost use Rattle.sea_trail.specs.Trail.{AreClosed, AreHeaders, AreLinked, Follows, IsOpen, IsTrail, records_in};

use sea_base::{NoMemory, Paddr, Sequence};
use sea_record::Record;
use sea_segment::Header;
use sea_trail::{ImageWhy, Link, Part, ScanFault, Trail};
use std::alloc::Global;

/// The trail of these segments, where they go on from one another and the tail is among them.
pub fn trail_of(
    alloc: Global,
    image: &[u8],
    segments: u32,
    headers: Vec<Header>,
    closed: Vec<Part>,
    newest: Part,
) -> Result<Trail, ScanFault>
    requires headers { AreHeaders image.now 0 segments headers.items }
    requires open_part { IsOpen image.now segments newest }
    requires closed { AreClosed image.now segments newest closed.items }
    ensures { MatchResult result (IsTrail image.now) (Refuses image.now) }
{
    let active = newest.header.segment;
    let seq = newest.header.seq;
    let end = newest.end;
    let last = newest.last;
    let mut parts = closed;
    parts.push(newest)?;
    if let Some(block) = broken_at(&parts) {
        return Err(ScanFault::Refused(ImageWhy::BadRecord { block }));
    }
    let place = last.tail.place;
    let Some(before) = before_place(&parts[0], place) else {
        return Err(ScanFault::Refused(ImageWhy::BadRecord { block: place }));
    };
    let records = records_from(alloc, parts, before)?;
    Ok(Trail {
        segments,
        active,
        seq,
        end,
        mount: last.mount,
        commit: last.commit,
        last: last.digest,
        tail: last.tail,
        root: last.root,
        records: Sequence::from_vec(records),
        headers: Sequence::from_vec(headers),
    })
}

// The end of the first segment from which the next doesn't go on.
fn broken_at(parts: &[Part]) -> Option<Paddr>
    ensures { MatchOption result (AreLinked parts.now) (λ block. IsBreak parts.now block.0) }
{
    for i in 1..parts.len() {
        if !follows(&parts[i - 1].last, &parts[i].header) {
            return Some(parts[i - 1].end);
        }
    }
    None
}

// Whether a header goes on from a segment with this last link.
fn follows(link: &Link, header: &Header) -> bool
    ensures { IsTrue result ↔ Follows link.now header.now }
{
    header.prev == link.digest && header.commit == link.commit && header.mount == link.mount
}

// How many records of a segment stand before a place of its chain.
fn before_place(part: &Part, place: Paddr) -> Option<usize>
    ensures { IsPlaced part.now
        → MatchOption result (HasNoPlace part.now place.0) (IsPlace part.now place.0) }
{
    for (i, entry) in part.records.items().iter().enumerate() {
        if entry.place == place {
            return Some(i);
        }
    }
    if place == part.end {
        return Some(part.records.items().len());
    }
    None
}

// The records of segments, in order, but for so many at first.
fn records_from(alloc: Global, parts: Vec<Part>, at: usize) -> Result<Vec<Record>, NoMemory>
    ensures { IfOk result (λ records. records.items ≡ drop at (records_in parts.items)) }
{
    let all = all_records(alloc, parts)?;
    let records = all.into_iter().skip(at).collect(alloc)?;
    Ok(records)
}

// The records of segments, in order.
fn all_records(alloc: Global, parts: Vec<Part>) -> Result<Vec<Record>, NoMemory>
    ensures { IfOk result (λ records. records.items ≡ records_in parts.items) }
{
    let mut records = Vec::new(alloc);
    for part in parts {
        let mut more = part.records.into_vec();
        records.append(&mut more)?;
    }
    Ok(records)
}
