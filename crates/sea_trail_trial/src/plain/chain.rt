//! The chain of a segment.
ghost use Rattle.std.specs.Prelude.{◌≡◌, ◌+◌, ◌*◌, ◌≤◌, ◌↔◌, length, IfOk, IsTrue, MatchOption};
ghost use Rattle.sea_trail.specs.Trail.{HasChain, NoneContinues, StandsIn, blocks_needed, body_of, mount_after};
ghost use Rattle.sea_trail_trial.specs.Plain.{GoesOn, IsPartBehind};

use crate::plain::headers::link_in;
use sea_base::{BLOCK_BYTES, NoMemory, Paddr, Sequence};
use sea_record::{Kind, Record, decode, digest_in, size};
use sea_segment::Header;
use sea_trail::{Link, Part, first_block};
use std::alloc::Global;

/// The chain behind a header of an image.
pub fn chain_of(alloc: Global, image: &[u8], header: &Header) -> Result<Part, NoMemory>
    requires few { header.now.segment ≤ 8190 }
    requires within { 4096 * blocks_needed (header.now.segment + 1) ≤ length image.now }
    requires stands { StandsIn image.now header.now }
    ensures chain { IfOk result (HasChain image.now) }
    ensures header { IfOk result (λ part. part.header ≡ header.now) }
{
    let link = link_in(alloc, image, header)?;
    let part = chain_behind(alloc, *header, link, body_at(image, header.segment))?;
    Ok(part)
}

// The bytes of a segment behind its header.
fn body_at(image: &[u8], segment: u32) -> &[u8]
    requires few { segment ≤ 8190 }
    requires within { 4096 * blocks_needed (segment + 1) ≤ length image.now }
    ensures body { result.now ≡ body_of image.now segment }
    ensures len { length result.now ≡ 4096 * 2047 }
{
    let from = BLOCK_BYTES * first_block(segment) as usize;
    &image[from..from + 2047 * BLOCK_BYTES]
}

// The chain behind a link, in the bytes behind a segment's header.
fn chain_behind(alloc: Global, header: Header, link: Link, bytes: &[u8]) -> Result<Part, NoMemory>
    requires few { header.segment ≤ 8190 }
    requires len { length bytes.now ≡ 4096 * 2047 }
    ensures { IfOk result (IsPartBehind header link bytes.now) }
{
    let mut part = Part {
        header,
        records: Sequence::new(alloc),
        end: Paddr(first_block(header.segment)),
        last: link,
    };
    let mut at = 0;
    while let Some(next) = next_entry(alloc, &bytes[at..], &part)? {
        let blocks = size(&next.entry.body);
        at += blocks as usize * BLOCK_BYTES;
        part.end = Paddr(part.end.0 + blocks);
        part.last = next.link;
        part.records.push(next.entry)?;
    }
    Ok(part)
}

/// A record that goes on, and what it hands on.
#[derive(Debug, Drop)]
struct Next {
    entry: Record,
    link: Link,
}

// The record at the start of the bytes, where it goes on from a part.
fn next_entry(alloc: Global, bytes: &[u8], part: &Part) -> Result<Option<Next>, NoMemory>
    ensures { IfOk result (λ found. MatchOption found
        (NoneContinues bytes.now part.now.end.0 part.now.header.seq part.now.last)
        (λ next. GoesOn bytes.now part.now next.entry next.link)) }
{
    let Some(entry) = decode(alloc, bytes)? else {
        return Ok(None);
    };
    if !goes_on(&entry, part) {
        return Ok(None);
    }
    let link = Link {
        mount: entry.mount,
        commit: entry.commit,
        digest: digest_in(bytes),
        tail: entry.tail,
        root: entry.root,
    };
    Ok(Some(Next { entry, link }))
}

// Whether a record that stands at the end of a part goes on from it.
fn goes_on(entry: &Record, part: &Part) -> bool
    ensures { IsTrue result ↔ ((entry.now.seq ≡ part.now.header.seq)
        × (entry.now.place.0 ≡ part.now.end.0)
        × (entry.now.commit.0 ≡ part.now.last.commit.0 + 1)
        × (entry.now.mount ≡ mount_after entry.now.body.kind part.now.last.mount)
        × (entry.now.prev.0 ≡ part.now.last.digest.0)) }
{
    let opened = entry.body.kind == Kind::Mount;
    entry.seq == part.header.seq
        && entry.place == part.end
        && entry.commit.0.checked_sub(1) == Some(part.last.commit.0)
        && entry.mount.checked_sub(opened as u64) == Some(part.last.mount)
        && entry.prev == part.last.digest
}
