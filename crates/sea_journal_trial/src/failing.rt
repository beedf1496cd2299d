//! Each call of the device fails once in turn.

use crate::bodies::{empty_root, plain_body};
use crate::calls::{NextTail, append, block, reserve, resumed};
use crate::disk::Disk;
use crate::fault::TrialFault;
use crate::past::byte_of;
use crate::running::{BLOCKS, SEGMENTS};
use sea_base::{Paddr, SpaceFault, Sum, sum_of};
use sea_device::Device;
use sea_journal::{Journal, MkfsFault, ReserveFault, ResumeFault, mkfs};
use sea_trail::{ImageWhy, ScanFault, Trail, scan};
use std::alloc::Global;

// More calls than a run makes.
const MOST_CALLS: u64 = 99;

/// A journal on a device of which one call fails, and how many answers have named that.
#[derive(Debug, Drop)]
struct Failing {
    alloc: Global,
    journal: Journal<Disk>,
    named: u64,
}

/// Makes a run again and again. In the first the first call of the device fails, in the second the
/// second one, until none does. Answers how many calls a run makes.
pub fn fail_each_call(alloc: Global) -> Result<u64, TrialFault> {
    for failing in 1..=MOST_CALLS {
        if faults_of(alloc, failing)? == 0 {
            return Ok(failing - 1);
        }
    }
    Err(TrialFault::Wrong("a run that doesn't end"))
}

// Makes the run, and answers how many calls failed.
fn faults_of(alloc: Global, failing: u64) -> Result<u64, TrialFault> {
    let mut disk = Disk::new(alloc, BLOCKS, failing)?;
    if let Err(fault) = mkfs(alloc, &mut disk, SEGMENTS) {
        if fault != MkfsFault::DeviceFault || !is_fresh_or_none(alloc, &mut disk) {
            return Err(TrialFault::Wrong("mkfs"));
        }
        return Ok(disk.faults());
    }
    let (trail, missed) = read(alloc, &mut disk)?;
    let mut failing = begin(alloc, disk, &trail)?;
    failing.named = failing.named.saturating_add(missed);
    failing.run()?;
    failing.end()
}

// Whether a failed mkfs left the image that it makes, or none.
fn is_fresh_or_none(alloc: Global, disk: &mut Disk) -> bool {
    match scan(alloc, disk) {
        Ok(trail) => trail.commit.0 == 0 && trail.end == Paddr(2),
        Err(fault) => fault == ScanFault::Refused(ImageWhy::NoSuper),
    }
}

// The trail, and how many scans missed it.
fn read(alloc: Global, disk: &mut Disk) -> Result<(Trail, u64), TrialFault> {
    match scan(alloc, disk) {
        Ok(trail) => Ok((trail, 0)),
        Err(ScanFault::DeviceFault) => Ok((scan(alloc, disk)?, 1)),
        Err(fault) => Err(TrialFault::Scan(fault)),
    }
}

// Opens the image. After a fault it is opened again, with what the first opening left of it.
fn begin(alloc: Global, disk: Disk, trail: &Trail) -> Result<Failing, TrialFault> {
    match resumed(alloc, disk, trail) {
        Ok(journal) => Ok(Failing {
            alloc,
            journal,
            named: 0,
        }),
        Err((mut disk, TrialFault::Resume(ResumeFault::DeviceFault))) => {
            disk.sync()?;
            let trail = scan(alloc, &mut disk)?;
            match resumed(alloc, disk, &trail) {
                Ok(journal) => Ok(Failing {
                    alloc,
                    journal,
                    named: 1,
                }),
                Err((_disk, fault)) => Err(fault),
            }
        }
        Err((_disk, fault)) => Err(fault),
    }
}

impl Failing {
    // Syncs records, opens a segment behind one that is queued, and reads a block that is queued and
    // then stable.
    fn run(&mut self) -> Result<(), TrialFault> {
        self.push(2)?;
        self.sync()?;
        self.push(1024)?;
        if self.roll()? != Paddr(2050) || self.journal.seq() != 2 {
            return Err(TrialFault::Wrong("a roll"));
        }
        let at = self.push(3)?;
        let sum = self.sum_at(at)?;
        self.test_block(at, sum)?;
        self.sync()?;
        self.test_block(at, sum)?;
        self.push(2)?;
        self.sync()
    }

    fn push(&mut self, blocks: u32) -> Result<Paddr, TrialFault> {
        if !(2..=1024).contains(&blocks) || self.journal.rest() < blocks {
            return Err(TrialFault::Unfit);
        }
        let commit = self.journal.commit().0.saturating_add(1);
        let body = plain_body(self.alloc, blocks, byte_of(commit))?;
        append(
            &mut self.journal,
            commit,
            body,
            NextTail::Stays,
            empty_root(2),
        )
    }

    // Syncs. After a fault the queue is as it was, and the next sync serves.
    fn sync(&mut self) -> Result<(), TrialFault> {
        let queued = self.journal.unsynced();
        if self.journal.sync().is_err() {
            self.named = self.named.saturating_add(1);
            if self.journal.unsynced() != queued {
                return Err(TrialFault::Wrong("a queue"));
            }
            self.journal.sync()?;
        }
        if self.journal.unsynced() != 0 {
            return Err(TrialFault::Wrong("a sync"));
        }
        Ok(())
    }

    fn roll(&mut self) -> Result<Paddr, TrialFault> {
        match reserve(&mut self.journal, 1024) {
            Err(TrialFault::Reserve(ReserveFault::DeviceFault)) => {
                self.named = self.named.saturating_add(1);
                reserve(&mut self.journal, 1024)
            }
            answer => answer,
        }
    }

    // The sum of a queued block, which the journal tells of a wrong one.
    fn sum_at(&mut self, at: Paddr) -> Result<Sum, TrialFault> {
        match block(&mut self.journal, at, Sum(0)) {
            Err(TrialFault::Block(SpaceFault::Damaged { found, .. })) => Ok(found),
            _ => Err(TrialFault::Wrong("a damaged block")),
        }
    }

    fn test_block(&mut self, at: Paddr, sum: Sum) -> Result<(), TrialFault> {
        let found = match block(&mut self.journal, at, sum) {
            Err(TrialFault::Block(SpaceFault::DeviceFault)) => {
                self.named = self.named.saturating_add(1);
                block(&mut self.journal, at, sum)?
            }
            answer => answer?,
        };
        if sum_of(&found) != sum {
            return Err(TrialFault::Wrong("a block"));
        }
        Ok(())
    }

    // Scans what stands. Each fault was named by the answer of one call.
    fn end(self) -> Result<u64, TrialFault> {
        let Failing {
            alloc,
            journal,
            named,
        } = self;
        let commit = journal.commit();
        let mut disk = journal.close();
        let (trail, missed) = read(alloc, &mut disk)?;
        let faults = disk.faults();
        if named.saturating_add(missed) != faults
            || trail.commit != commit
            || trail.end != Paddr(2055)
        {
            return Err(TrialFault::Wrong("what stands"));
        }
        Ok(faults)
    }
}
