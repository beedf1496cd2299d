//! The chain of a segment, read from its bytes.
ghost use Rattle.std.specs.Prelude.{◌≡◌, ◌+◌, ◌*◌, ◌≤◌, ◌↔◌, length, IfOk, IfSome, IsTrue};
ghost use Rattle.std.specs.Prelude.{MatchOption};
ghost use Rattle.sea_device.specs.Calls.{OnlyRead};
ghost use Rattle.sea_record.specs.Record.{BeginsWith, blocks};
ghost use Rattle.sea_segment.specs.Header.{IsHeader};
ghost use Rattle.sea_trail.specs.Faults.{BlamesDevice};
ghost use Rattle.sea_trail.specs.Parts.{IsPartOf, GoesOn};
ghost use Rattle.sea_trail.specs.Ranges.{PartInRange};
ghost use Rattle.sea_trail.specs.Trail.{Continues, NoneContinues, HasChain, header_link, link_of};
ghost use Rattle.sea_trail.specs.Trail.{mount_after, segment_end};
ghost use Rattle.sea_trail.specs.declared.fault.ReadFault.TheVariants.{DeviceFault};

use crate::reading::read_blocks;
use crate::survey::Found;
use crate::{Link, Part, ReadFault, SEGMENT_BLOCKS, first_block};
use sea_base::{BLOCK_BYTES, NoMemory, Paddr, Sequence};
use sea_device::Device;
use sea_record::{Kind, Record, decode, digest_in, size};
use std::alloc::Global;

/// Reads the chain of a segment, its blocks behind the header at once.
pub fn read_part<D: Device>(alloc: Global, device: &mut D, found: &Found) -> Result<Part, ReadFault>
    requires few { found.now.header.segment ≤ 8191 }
    requires within { segment_end found.now.header.segment ≤ D.size device.old }
    requires fit { IsHeader found.now.header × (found.now.link ≡ header_link found.now.header) }
    ensures part { IfOk result (λ part. IfSome (D.contents device.old)
        (λ image. HasChain image part)) }
    ensures header { IfOk result (λ part. part.header ≡ found.now.header) }
    ensures range { IfOk result PartInRange }
    ensures read { OnlyRead D.Device device.old device.new }
    ensures cause { BlamesDevice DeviceFault (D.faults device.old) (D.faults device.new) result }
{
    let first = first_block(found.header.segment);
    let bytes = read_blocks(alloc, device, first, SEGMENT_BLOCKS - 1)?;
    let part = part_in(alloc, found, &bytes)?;
    Ok(part)
}

// The chain that the bytes behind a segment's header hold.
fn part_in(alloc: Global, found: &Found, bytes: &[u8]) -> Result<Part, NoMemory>
    requires few { found.now.header.segment ≤ 8191 }
    requires len { length bytes.now ≡ 4096 * 2047 }
    ensures { IfOk result (IsPartOf found.now bytes.now) }
{
    let first = first_block(found.header.segment);
    let mut part = Part {
        header: found.header,
        records: Sequence::new(alloc),
        end: Paddr(first),
        last: found.link,
    };
    let mut at = 0;
    while let Some(next) = next_record(alloc, &bytes[at..], &part)? {
        let blocks = size(&next.entry.body);
        at += blocks as usize * BLOCK_BYTES;
        part.end = Paddr(part.end.0 + blocks);
        part.last = next.link;
        part.records.push(next.entry)?;
    }
    Ok(part)
}

/// A record that goes on, and what it hands on.
#[derive(Debug, Drop)]
struct Next {
    entry: Record,
    link: Link,
}

// The record with which a chain goes on, whose part so far is given.
fn next_record(alloc: Global, bytes: &[u8], part: &Part) -> Result<Option<Next>, NoMemory>
    ensures found { IfOk result (λ found. MatchOption found
        (NoneContinues bytes.now part.now.end.0 part.now.header.seq part.now.last)
        (GoesOn bytes.now part.now)) }
{
    let Some(entry) = decode(alloc, bytes)? else {
        return Ok(None);
    };
    if !continues(&entry, part) {
        return Ok(None);
    }
    let link = Link {
        mount: entry.mount,
        commit: entry.commit,
        digest: digest_in(bytes),
        tail: entry.tail,
        root: entry.root,
    };
    Ok(Some(Next { entry, link }))
}

// Whether a record that stands at the end of a part goes on from it.
fn continues(entry: &Record, part: &Part) -> bool
    ensures { IsTrue result ↔ ((entry.now.seq ≡ part.now.header.seq)
        × (entry.now.place.0 ≡ part.now.end.0)
        × (entry.now.commit.0 ≡ part.now.last.commit.0 + 1)
        × (entry.now.mount ≡ mount_after entry.now.body.kind part.now.last.mount)
        × (entry.now.prev.0 ≡ part.now.last.digest.0)) }
{
    let opened = entry.body.kind == Kind::Mount;
    entry.seq == part.header.seq
        && entry.place == part.end
        && entry.commit.0.checked_sub(1) == Some(part.last.commit.0)
        && entry.mount.checked_sub(opened as u64) == Some(part.last.mount)
        && entry.prev == part.last.digest
}
