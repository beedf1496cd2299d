//! A plain reader of images, whose contract is the definition of the trail. It looks at one block or
//! one record at a time, and looks again wherever it needs one.
ghost use Rattle.std.specs.Prelude.{◌≡◌, ◌%◌, ◌^◌, ◌<◌, length, MatchResult};
ghost use Rattle.sea_trail.specs.Refusals.{Refuses};
ghost use Rattle.sea_trail.specs.Trail.{IsTrail};

mod chain;
mod closed;
mod headers;
mod joining;
mod superblock;

use chain::chain_of;
use closed::closed_of;
use headers::{headers_of, newest_of};
use joining::trail_of;
use sea_trail::{ImageWhy, ScanFault, Trail};
use std::alloc::Global;
use superblock::segments_of;

/// The trail of an image, or why it has none.
pub fn read_plainly(alloc: Global, image: &[u8]) -> Result<Trail, ScanFault>
    requires whole { length image.now % 4096 ≡ 0 }
    requires few { length image.now < 2 ^ 44 }
    ensures { MatchResult result (IsTrail image.now) (Refuses image.now) }
{
    let segments = segments_of(alloc, image)?;
    let headers = headers_of(alloc, image, segments)?;
    let Some(header) = newest_of(alloc, image, segments)? else {
        return Err(ScanFault::Refused(ImageWhy::NoSegment));
    };
    let newest = chain_of(alloc, image, &header)?;
    let tail = newest.last.tail;
    if tail.seq > newest.header.seq {
        return Err(ScanFault::Refused(ImageWhy::BadRecord { block: tail.place }));
    }
    let closed = closed_of(alloc, image, segments, &newest)?;
    let trail = trail_of(alloc, image, segments, headers, closed, newest)?;
    Ok(trail)
}
