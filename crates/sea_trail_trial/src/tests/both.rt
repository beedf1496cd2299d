//! The scan of an image beside the plain reading of it.

use crate::fault::TrialFault;
use crate::image::Image;
use crate::plain::read_plainly;
use sea_base::BLOCK_BYTES;
use sea_trail::{ScanFault, Trail, scan};
use std::alloc::Global;

// What a scan tells of an image, which is what the plain reader tells.
pub fn read_both(alloc: Global, image: &mut Image) -> Result<Trail, TrialFault> {
    let scanned = scan(alloc, &mut image.device);
    let read = read_bytes(alloc, image.device.bytes());
    match (scanned, read) {
        (Ok(left), Some(Ok(right))) => {
            if is_same(&left, &right) {
                Ok(left)
            } else {
                Err(TrialFault::Differ)
            }
        }
        (Err(left), Some(Err(right))) => {
            if left == right {
                Err(TrialFault::Scan(left))
            } else {
                Err(TrialFault::Differ)
            }
        }
        _ => Err(TrialFault::Differ),
    }
}

// What the plain reader tells of whole blocks.
fn read_bytes(alloc: Global, bytes: &[u8]) -> Option<Result<Trail, ScanFault>> {
    if bytes.len() % BLOCK_BYTES == 0 && bytes.len() < 1 << 44 {
        Some(read_plainly(alloc, bytes))
    } else {
        None
    }
}

// Whether two trails have all in common but what the records hold, of which the digests tell.
pub fn is_same(left: &Trail, right: &Trail) -> bool {
    left.segments == right.segments
        && left.active == right.active
        && left.seq == right.seq
        && left.end == right.end
        && left.mount == right.mount
        && left.commit == right.commit
        && left.last == right.last
        && left.tail == right.tail
        && left.root == right.root
        && left.headers == right.headers
        && have_same_records(left, right)
}

fn have_same_records(left: &Trail, right: &Trail) -> bool {
    let (left, right) = (left.records.items(), right.records.items());
    left.len() == right.len()
        && left.iter().zip(right).all(|(l, r)| l.place == r.place
            && l.commit == r.commit
            && l.prev == r.prev)
}
