//! The trial itself.

use crate::format::{COMMIT, blocks, metadata, spelled};
use sea_base::NoMemory;
use sea_record::{decode, encode, size};
use std::alloc::Global;
use std::fmt;

/// What a trial counted.
#[derive(Clone, Copy, Debug, PartialEq, Eq)]
pub struct Report {
    records: u32,
    blocks: u64,
    again: u32,
}

impl fmt::Display for Report {
    fn fmt<W: fmt::Write>(&self, f: &mut fmt::Formatter<W>) -> fmt::Result {
        let Report {
            records,
            blocks,
            again,
        } = *self;
        write!(f, "records {records} blocks {blocks} again {again}")
    }
}

/// A record of each kind.
pub fn run_trial(alloc: Global) -> Result<Report, NoMemory> {
    let mut report = Report {
        records: 0,
        blocks: 0,
        again: 0,
    };
    for kind in [1, 2, 3, 4, 9] {
        let bytes = sample(alloc, kind)?;
        let Some(record) = decode(alloc, &bytes)? else {
            continue;
        };
        report.records = report.records.saturating_add(1);
        report.blocks = report.blocks.saturating_add(size(&record.body) as u64);
        if encode(alloc, &record)?.bytes() == bytes.as_slice() {
            report.again = report.again.saturating_add(1);
        }
    }
    Ok(report)
}

/// The bytes of a sample of this kind.
pub fn sample(alloc: Global, kind: u32) -> Result<Vec<u8>, NoMemory> {
    match kind {
        2 => {
            let placed = [(5, COMMIT, 0), (6, COMMIT, 1), (7, COMMIT, 2)];
            let changes: [(u64, u16, u16, &[u8]); 3] = [
                (1, 0, 4, b"abcd"),
                (1, 4096, 0, b""),
                (50, 32, 0, b"xyz"),
            ];
            let lists = metadata(alloc, &placed, &[2, 3, 40], &changes)?;
            spelled(alloc, 2, &blocks(alloc, 3)?, &lists)
        }
        3 => {
            let lists = metadata(alloc, &[(9, 4, 0), (10, 11, 1)], &[], &[])?;
            spelled(alloc, 3, &blocks(alloc, 2)?, &lists)
        }
        4 => spelled(alloc, 4, &blocks(alloc, 5)?, &[]),
        9 => spelled(alloc, 9, &[], &[7; 5000]),
        _ => spelled(alloc, 1, &[], &[]),
    }
}
