//! The trial itself.

use crate::fault::TrialFault;
use crate::format::Holds;
use crate::image::{Image, Step};
use sea_base::{BLOCK_BYTES, Digest, digest_of};
use sea_record::{decode, encode};
use sea_trail::scan;
use std::alloc::Global;
use std::fmt;

/// What is done over and over.
#[derive(Clone, Copy, Debug, PartialEq, Eq)]
pub enum Work {
    /// The image is scanned.
    Scan,
    /// The blocks of its segments are hashed, each segment's at once.
    Hash,
    /// The records of its segments are read one by one and spelled again.
    Spell,
}

/// What a trial counted.
#[derive(Clone, Copy, Debug, PartialEq, Eq)]
pub struct Report {
    times: u32,
    records: usize,
    blocks: usize,
}

impl fmt::Display for Report {
    fn fmt<W: fmt::Write>(&self, f: &mut fmt::Formatter<W>) -> fmt::Result {
        let Report {
            times,
            records,
            blocks,
        } = *self;
        write!(f, "times {times} records {records} blocks {blocks}")
    }
}

/// Fills so many segments with records, and does the work so many times.
pub fn run_trial(
    alloc: Global,
    work: Work,
    segments: u32,
    times: u32,
) -> Result<Report, TrialFault> {
    let mut image = full_image(alloc, segments)?;
    let trail = scan(alloc, &mut image.device)?;
    let mut report = Report {
        times,
        records: trail.records.items().len(),
        blocks: 0,
    };
    for _ in 0..times {
        let blocks = match work {
            Work::Scan => scanned(alloc, &mut image, segments)?,
            Work::Hash => hashed(&image, segments),
            Work::Spell => spelled(alloc, &image, segments)?,
        };
        report.blocks = report.blocks.saturating_add(blocks);
    }
    Ok(report)
}

// An image with so many segments, each full of records with 17 placed blocks.
fn full_image(alloc: Global, segments: u32) -> Result<Image, TrialFault> {
    let mut image = Image::new(alloc)?;
    image.step(alloc, Step::Record(Holds::Mount))?;
    for segment in 0..segments {
        if segment > 0 {
            image.step(alloc, Step::Roll(segment))?;
        }
        image.step(alloc, Step::Records(107, Holds::Placed(17)))?;
    }
    Ok(image)
}

// How many blocks a scan reads behind the headers.
fn scanned(alloc: Global, image: &mut Image, segments: u32) -> Result<usize, TrialFault> {
    let trail = scan(alloc, &mut image.device)?;
    let blocks = if trail.headers.items().len() == segments as usize {
        segments as usize * 2047
    } else {
        0
    };
    Ok(blocks)
}

// How many blocks were hashed behind the headers.
fn hashed(image: &Image, segments: u32) -> usize {
    let mut blocks = 0usize;
    for segment in 0..segments {
        if let Some(bytes) = body_of(image, segment)
            && digest_of(bytes) != Digest([0; 32])
        {
            blocks = blocks.saturating_add(2047);
        }
    }
    blocks
}

// How many blocks the records take that are spelled.
fn spelled(alloc: Global, image: &Image, segments: u32) -> Result<usize, TrialFault> {
    let mut blocks = 0usize;
    for segment in 0..segments {
        let mut rest = body_of(image, segment).unwrap_or(&[]);
        for _ in 0..2047 {
            let Some(record) = decode(alloc, rest)? else {
                break;
            };
            let bytes = encode(alloc, &record)?;
            blocks = blocks.saturating_add(bytes.len() / BLOCK_BYTES);
            let Some(behind) = rest.get(bytes.len()..) else {
                break;
            };
            rest = behind;
        }
    }
    Ok(blocks)
}

// The blocks of a segment behind its header.
fn body_of(image: &Image, segment: u32) -> Option<&[u8]> {
    let from = (2 + 2048 * segment as usize) * BLOCK_BYTES;
    image.device.bytes().get(from..from + 2047 * BLOCK_BYTES)
}
