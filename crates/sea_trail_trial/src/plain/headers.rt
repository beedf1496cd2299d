//! The headers of an image.
ghost use Rattle.std.specs.Prelude.{◌≡◌, ◌+◌, ◌*◌, ◌<◌, ◌≤◌, length, Some, IfOk, MatchOption};
ghost use Rattle.sea_trail.specs.Trail.{AreHeaders, IsNumbered, StandsIn, blocks_needed, header_link};
ghost use Rattle.sea_trail_trial.specs.Plain.{HasNone, HasOne, IsNewestOf, NoneNumbered};

use crate::plain::superblock::block_at;
use sea_base::NoMemory;
use sea_segment::Header;
use sea_trail::{Link, header_block};
use std::alloc::Global;

/// The headers of so many segments.
pub fn headers_of(alloc: Global, image: &[u8], segments: u32) -> Result<Vec<Header>, NoMemory>
    requires few { segments ≤ 8191 }
    requires within { 4096 * blocks_needed segments ≤ length image.now }
    ensures { IfOk result (λ headers. AreHeaders image.now 0 segments headers.items) }
{
    let mut headers = Vec::new(alloc);
    for segment in 0..segments {
        if let Some(header) = header_in(alloc, image, segment)? {
            headers.push(header)?;
        }
    }
    Ok(headers)
}

/// The one with the greatest number, the first of several.
pub fn newest_of(alloc: Global, image: &[u8], segments: u32) -> Result<Option<Header>, NoMemory>
    requires few { segments ≤ 8191 }
    requires within { 4096 * blocks_needed segments ≤ length image.now }
    ensures { IfOk result (IsNewestOf image.now segments) }
{
    let mut newest = None;
    for segment in 0..segments {
        if let Some(header) = header_in(alloc, image, segment)? {
            newest = newer(newest, header);
        }
    }
    Ok(newest)
}

/// The one with this number, the first of several.
pub fn numbered(
    alloc: Global,
    image: &[u8],
    segments: u32,
    seq: u64,
) -> Result<Option<Header>, NoMemory>
    requires few { segments ≤ 8191 }
    requires within { 4096 * blocks_needed segments ≤ length image.now }
    ensures { IfOk result (λ found. MatchOption found (NoneNumbered image.now segments seq)
        (IsNumbered image.now segments seq)) }
{
    for segment in 0..segments {
        if let Some(header) = header_in(alloc, image, segment)? {
            if header.seq == seq {
                return Ok(Some(header));
            }
        }
    }
    Ok(None)
}

/// What a header hands on.
pub fn link_in(alloc: Global, image: &[u8], header: &Header) -> Result<Link, NoMemory>
    requires few { header.now.segment ≤ 8190 }
    requires within { 4096 * blocks_needed (header.now.segment + 1) ≤ length image.now }
    requires stands { StandsIn image.now header.now }
    ensures { IfOk result (λ link. link ≡ header_link header.now) }
{
    let block = block_at(alloc, image, header_block(header.segment))?;
    Ok(Link {
        mount: header.mount,
        commit: header.commit,
        digest: Header::digest_in(&block),
        tail: header.tail,
        root: header.root,
    })
}

// The header in this segment, which it has to name.
fn header_in(alloc: Global, image: &[u8], segment: u32) -> Result<Option<Header>, NoMemory>
    requires few { segment ≤ 8190 }
    requires within { 4096 * blocks_needed (segment + 1) ≤ length image.now }
    ensures { IfOk result (λ found. MatchOption found (HasNone image.now segment)
        (HasOne image.now segment)) }
{
    let block = block_at(alloc, image, header_block(segment))?;
    let Some(header) = Header::read(&block) else {
        return Ok(None);
    };
    if header.segment != segment {
        return Ok(None);
    }
    Ok(Some(header))
}

// Of two headers the one with the greater number, the earlier one where they have the same.
fn newer(earlier: Option<Header>, later: Header) -> Option<Header>
    ensures { MatchOption earlier (result ≡ Some later) (λ h.
        (h.seq < later.seq → result ≡ Some later) × (later.seq ≤ h.seq → result ≡ Some h)) }
{
    match earlier {
        Some(header) if header.seq >= later.seq => Some(header),
        _ => Some(later),
    }
}
