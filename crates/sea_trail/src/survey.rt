//! The headers of an image.
ghost use Rattle.std.specs.Prelude.{◌≡◌, ◌≤◌, ◌<◌, ◌==◌, IfOk, IfSome, MatchOption};
ghost use Rattle.std.specs.List.{find};
ghost use Rattle.sea_device.specs.Calls.{OnlyRead};
ghost use Rattle.sea_trail.specs.Faults.{BlamesDevice};
ghost use Rattle.sea_trail.specs.Parts.{IsSurvey, IsFoundIn, SpellsNone, SurveyFits};
ghost use Rattle.sea_trail.specs.Trail.{blocks_needed};
ghost use Rattle.sea_trail.specs.declared.fault.ReadFault.TheVariants.{DeviceFault};

use crate::reading::read_block;
use crate::{Link, ReadFault, header_block};
use sea_base::Block;
use sea_device::Device;
use sea_segment::Header;
use std::alloc::Global;

/// A header that was found, and what it hands on.
#[derive(Clone, Copy, Debug)]
pub struct Found {
    pub header: Header,
    pub link: Link,
}

/// The headers of all segments that have one, and which of them is the open segment's.
#[derive(Debug, Drop)]
pub struct Survey {
    pub found: Vec<Found>,
    pub newest: Option<Found>,
}

/// Reads the headers of so many segments.
pub fn read_headers<D: Device>(
    alloc: Global,
    device: &mut D,
    segments: u32,
) -> Result<Survey, ReadFault>
    requires few { segments ≤ 8191 }
    requires room { blocks_needed segments ≤ D.size device.old }
    ensures survey { IfOk result (λ survey. IfSome (D.contents device.old)
        (IsSurvey survey segments)) }
    ensures fits { IfOk result (λ survey. SurveyFits survey segments) }
    ensures read { OnlyRead D.Device device.old device.new }
    ensures cause { BlamesDevice DeviceFault (D.faults device.old) (D.faults device.new) result }
{
    let mut survey = Survey {
        found: Vec::new(alloc),
        newest: None,
    };
    for segment in 0..segments {
        let block = read_block(alloc, device, header_block(segment))?;
        if let Some(found) = header_in(&block, segment) {
            survey.found.push(found)?;
            survey.newest = newer(survey.newest, found);
        }
    }
    Ok(survey)
}

// The header that the first block of a segment spells.
fn header_in(block: &Block, segment: u32) -> Option<Found>
    ensures { MatchOption result (SpellsNone block.now segment) (IsFoundIn block.now segment) }
{
    let Some(header) = Header::read(block) else {
        return None;
    };
    if header.segment != segment {
        return None;
    }
    Some(Found {
        header,
        link: Link {
            mount: header.mount,
            commit: header.commit,
            digest: Header::digest_in(block),
            tail: header.tail,
            root: header.root,
        },
    })
}

// Of two headers the one with the greater number, the earlier one where they have the same.
fn newer(earlier: Option<Found>, later: Found) -> Option<Found>
    ensures { MatchOption earlier (result ≡ Some later) (λ f.
        (f.header.seq < later.header.seq → result ≡ Some later)
        × (later.header.seq ≤ f.header.seq → result ≡ Some f)) }
{
    match earlier {
        Some(found) if found.header.seq >= later.header.seq => Some(found),
        _ => Some(later),
    }
}

/// The header with this sequence number, the first of several.
pub fn numbered(found: &[Found], seq: u64) -> Option<Found>
    ensures { result ≡ find (λ f. f.header.seq == seq) found.now }
{
    for f in found {
        if f.header.seq == seq {
            return Some(*f);
        }
    }
    None
}
