//! A journal at work, with all that it made.

use crate::bodies::{empty_root, plain_body};
use crate::calls::{NextTail, append, free, reserve, resumed};
use crate::disk::Disk;
use crate::fault::TrialFault;
use crate::past::{Past, Point, byte_of};
use sea_base::{Paddr, Tail};
use sea_journal::{Journal, mkfs};
use sea_trail::{SEGMENT_BLOCKS, Trail, scan};
use std::alloc::Global;

/// How many segments an image has.
pub const SEGMENTS: u32 = 6;

/// How many blocks these need.
pub const BLOCKS: u32 = 12_289;

/// What is done next.
#[derive(Clone, Copy, Debug)]
pub enum Step {
    /// A record of so many blocks, 2 or more, is pushed.
    Push(u32),
    /// The same, and it is the tail from now on.
    Own(u32),
    Sync,
    /// A place for a record of 1,024 blocks is reserved, for which the open segment has no room.
    Roll,
    /// A segment is freed.
    Free(u32),
}

/// A journal of plain records, and its past.
#[derive(Debug, Drop)]
pub struct Run {
    alloc: Global,
    journal: Journal<Disk>,
    past: Past,
}

impl Run {
    /// Makes an image of a device of zeros, and opens it.
    pub fn new(alloc: Global, mut disk: Disk) -> Result<Run, TrialFault> {
        mkfs(alloc, &mut disk, SEGMENTS)?;
        let trail = scan(alloc, &mut disk)?;
        let past = Past::new(alloc, Point::of(&trail, 0))?;
        Run::open(alloc, disk, &trail, past)
    }

    /// Opens an image of which this trail was found, the last point of its past.
    pub fn open(
        alloc: Global,
        disk: Disk,
        trail: &Trail,
        mut past: Past,
    ) -> Result<Run, TrialFault> {
        let journal = match resumed(alloc, disk, trail) {
            Ok(journal) => journal,
            Err((_disk, fault)) => return Err(fault),
        };
        let mut point = past.last()?;
        point.end = point.end.saturating_add(1);
        point.mount = journal.mount();
        point.commit = journal.commit().0;
        past.add_record(point, 1)?;
        past.synced()?;
        Ok(Run {
            alloc,
            journal,
            past,
        })
    }

    /// Does one of these.
    pub fn step(&mut self, step: Step) -> Result<(), TrialFault> {
        match step {
            Step::Push(blocks) => self.push(blocks, NextTail::Stays),
            Step::Own(blocks) => self.push(blocks, NextTail::Own),
            Step::Sync => self.sync(),
            Step::Roll => self.roll(),
            Step::Free(segment) => {
                self.sync()?;
                free(&mut self.journal, segment)
            }
        }
    }

    // Pushes a record of so many blocks, for which the open segment has room.
    fn push(&mut self, blocks: u32, next_tail: NextTail) -> Result<(), TrialFault> {
        if !(2..=1024).contains(&blocks) || self.journal.rest() < blocks {
            return Err(TrialFault::Unfit);
        }
        let last = self.past.last()?;
        let commit = last.commit.saturating_add(1);
        let body = plain_body(self.alloc, blocks, byte_of(commit))?;
        let next = last.next.saturating_add(1);
        let at = append(&mut self.journal, commit, body, next_tail, empty_root(next))?;
        let mut point = Point {
            end: at.0.saturating_add(blocks),
            commit,
            next,
            ..last
        };
        if next_tail == NextTail::Own {
            point.tail = Tail {
                seq: last.seq,
                place: at,
            };
            point.gone = last.commit;
        }
        self.past.add_record(point, blocks)
    }

    // Makes stable what is queued.
    fn sync(&mut self) -> Result<(), TrialFault> {
        let queued = self.journal.unsynced();
        self.journal.sync()?;
        if queued > 0 {
            self.past.synced()?;
        }
        Ok(())
    }

    /// Makes room for a record of 1,024 blocks: where the open segment has none, opens the least
    /// empty one.
    pub fn make_room(&mut self) -> Result<(), TrialFault> {
        if self.journal.rest() < 1024 {
            self.roll()?;
        }
        Ok(())
    }

    // Opens the least empty segment.
    fn roll(&mut self) -> Result<(), TrialFault> {
        if self.journal.rest() >= 1024 {
            return Err(TrialFault::Unfit);
        }
        if self.journal.unsynced() > 0 {
            self.past.synced()?;
        }
        let Paddr(at) = reserve(&mut self.journal, 1024)?;
        let last = self.past.last()?;
        self.past.add_header(Point {
            segment: at.saturating_sub(2) / SEGMENT_BLOCKS,
            seq: last.seq.saturating_add(1),
            end: at,
            ..last
        })?;
        self.past.synced()
    }

    /// Ends the run: the past, and the device.
    pub fn end(self) -> (Past, Disk) {
        let Run {
            alloc: _,
            journal,
            past,
        } = self;
        (past, journal.close())
    }
}
