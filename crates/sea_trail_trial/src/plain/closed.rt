//! The closed segments of an image.
ghost use Rattle.std.specs.Prelude.{◌≡◌, ◌*◌, ◌≤◌, length, MatchResult};
ghost use Rattle.sea_trail.specs.Refusals.{Refuses};
ghost use Rattle.sea_trail.specs.Trail.{AreClosed, IsOpen, blocks_needed};

use crate::plain::chain::chain_of;
use crate::plain::headers::numbered;
use sea_trail::{ImageWhy, Part, ScanFault};
use std::alloc::Global;

/// Those from the tail's on, up to the open one.
pub fn closed_of(
    alloc: Global,
    image: &[u8],
    segments: u32,
    newest: &Part,
) -> Result<Vec<Part>, ScanFault>
    requires few { segments ≤ 8191 }
    requires within { 4096 * blocks_needed segments ≤ length image.now }
    requires behind { newest.now.last.tail.seq ≤ newest.now.header.seq }
    requires open_part { IsOpen image.now segments newest.now }
    ensures { MatchResult result (λ parts. AreClosed image.now segments newest.now parts.items)
        (Refuses image.now) }
{
    let mut parts = Vec::new(alloc);
    for seq in newest.last.tail.seq..newest.header.seq {
        let Some(header) = numbered(alloc, image, segments, seq)? else {
            return Err(ScanFault::Refused(ImageWhy::MissingSegment { seq }));
        };
        let part = chain_of(alloc, image, &header)?;
        parts.push(part)?;
    }
    Ok(parts)
}
