//! Images of crashes of a run, each of which has to hold a prefix of it.

use crate::disk::{Call, Disk};
use crate::fault::TrialFault;
use crate::past::Past;
use crate::running::{BLOCKS, Run, Step};
use Step::{Free, Own, Push, Roll, Sync};
use sea_trail::{ImageWhy, ScanFault, scan};
use std::alloc::Global;
use std::fmt;

// How many blocks of a write may be lost or not. Of a longer write the others are not lost.
const MOST: usize = 19;

// Segment 0 is filled and closed, freed once the tail has left it, and opened again over what stands
// there.
const STEPS: [Step; 56] = [
    Push(2),
    Push(3),
    Push(2),
    Push(4),
    Push(2),
    Sync,
    Push(3),
    Push(2),
    Push(2),
    Push(5),
    Push(2),
    Push(4),
    Sync,
    Push(2),
    Sync,
    Push(1024),
    Sync,
    Push(3),
    Roll,
    Own(2),
    Sync,
    Free(0),
    Push(3),
    Push(2),
    Push(2),
    Push(3),
    Push(2),
    Push(2),
    Push(2),
    Sync,
    Push(4),
    Push(2),
    Push(6),
    Push(2),
    Sync,
    Push(1024),
    Sync,
    Roll,
    Own(3),
    Sync,
    Push(3),
    Push(2),
    Push(4),
    Push(2),
    Push(2),
    Sync,
    Push(2),
    Sync,
    Push(2),
    Push(2),
    Push(3),
    Push(2),
    Push(5),
    Push(2),
    Sync,
    Sync,
];

/// What a trial counted.
#[derive(Clone, Copy, Debug, PartialEq, Eq)]
pub struct Report {
    pub records: usize,
    pub writes: u64,
    pub images: u64,
}

impl fmt::Display for Report {
    fn fmt<W: fmt::Write>(&self, f: &mut fmt::Formatter<W>) -> fmt::Result {
        let Report {
            records,
            writes,
            images,
        } = *self;
        write!(f, "records {records} writes {writes} images {images}")
    }
}

// A block that was written and not synced: where, and which block stood there at the last sync and
// stands there now.
#[derive(Clone, Copy, Debug)]
struct Unsynced {
    at: u32,
    stable: u32,
    now: u32,
}

/// The calls of a run, made again one by one, with a crash within each write.
#[derive(Debug, Drop)]
struct Replay {
    alloc: Global,
    past: Past,
    disk: Disk,
    unsynced: Vec<Unsynced>,
    syncs: u64,
    writes: u64,
    images: u64,
}

/// Runs the journal, crashes it within each write with each choice of up to so many blocks lost, and
/// scans what the crash leaves.
pub fn crash_each_write(alloc: Global, lost: u32) -> Result<Report, TrialFault> {
    let mut run = Run::new(alloc, Disk::new(alloc, BLOCKS, 0)?)?;
    for step in STEPS {
        run.step(step)?;
    }
    let (past, disk) = run.end();
    let mut replay = Replay {
        alloc,
        past,
        disk,
        unsynced: Vec::new(alloc),
        syncs: 0,
        writes: 0,
        images: 0,
    };
    replay.run(lost)?;
    Ok(Report {
        records: replay.past.records(),
        writes: replay.writes,
        images: replay.images,
    })
}

impl Replay {
    // Makes all calls again.
    fn run(&mut self, lost: u32) -> Result<(), TrialFault> {
        let log = self.disk.log().to_vec(self.alloc)?;
        self.disk.rewind();
        for call in log {
            match call {
                Call::Sync => {
                    self.syncs = self.syncs.saturating_add(1);
                    self.unsynced.clear();
                }
                Call::Write { at, from, count } => {
                    self.write(at, from, count)?;
                    self.crash(lost)?;
                }
            }
        }
        if self.syncs != self.past.syncs() {
            return Err(TrialFault::Wrong("the number of syncs"));
        }
        Ok(())
    }

    // Makes a write again.
    fn write(&mut self, at: u32, from: u32, count: u32) -> Result<(), TrialFault> {
        self.writes = self.writes.saturating_add(1);
        for i in 0..count {
            let at = at.saturating_add(i);
            let now = from.saturating_add(i);
            let stable = self.disk.held(at);
            self.unsynced.push(Unsynced { at, stable, now })?;
            self.disk.hold(at, now);
        }
        Ok(())
    }

    // Tries each choice of up to so many lost blocks.
    fn crash(&mut self, lost: u32) -> Result<(), TrialFault> {
        let places = self.places()?;
        let all = 1u32 << places.len().min(MOST);
        for choice in 0..all {
            if choice.count_ones() <= lost {
                self.lose(&places, choice);
                self.test(choice)?;
                self.keep(&places);
            }
        }
        Ok(())
    }

    // The blocks that may be lost: of a long write the first, the last and some between.
    fn places(&self) -> Result<Vec<Unsynced>, TrialFault> {
        let len = self.unsynced.len();
        let mut places = Vec::new(self.alloc);
        for (i, block) in self.unsynced.iter().enumerate() {
            if len <= MOST || i < 3 || i + 3 >= len || i == len / 2 {
                places.push(*block)?;
            }
        }
        Ok(places)
    }

    fn lose(&mut self, places: &[Unsynced], choice: u32) {
        for (i, block) in places.iter().enumerate() {
            if i < 32 && choice >> i & 1 == 1 {
                self.disk.hold(block.at, block.stable);
            }
        }
    }

    fn keep(&mut self, places: &[Unsynced]) {
        for block in places {
            self.disk.hold(block.at, block.now);
        }
    }

    // Scans the image of a crash.
    fn test(&mut self, lost: u32) -> Result<(), TrialFault> {
        self.images = self.images.saturating_add(1);
        let right = match scan(self.alloc, &mut self.disk) {
            Ok(trail) => self.past.allows(self.syncs, &trail),
            // The superblock is the last that mkfs writes.
            Err(ScanFault::Refused(ImageWhy::NoSuper)) => self.syncs < 2,
            Err(_) => false,
        };
        if right {
            Ok(())
        } else {
            Err(TrialFault::NoPrefix {
                write: self.writes,
                lost,
            })
        }
    }
}
