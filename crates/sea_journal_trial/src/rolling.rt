//! A crash in the middle of a roll.

use crate::disk::Disk;
use crate::fault::TrialFault;
use crate::past::{Past, Point};
use crate::running::{BLOCKS, Run, Step};
use sea_base::{BLOCK_BYTES, Paddr};
use sea_device::Device;
use sea_journal::ReserveFault;
use sea_trail::{Trail, scan};
use std::alloc::Global;

// The block of the header of segment 1.
const HEADER: u32 = 2049;

// A block that a record fills with bytes of its client.
const CLIENTS: u32 = 100;

// So many bytes of a torn header are those of the new one.
const TORN: usize = 64;

/// Which of a roll's last two calls of the device fails.
#[derive(Clone, Copy, Debug, PartialEq, Eq)]
pub enum Failing {
    /// The write of the new header, which then does nothing.
    Write,
    /// The sync of what it wrote.
    Sync,
}

/// What the crash leaves in the block of the new header.
#[derive(Clone, Copy, Debug, PartialEq, Eq)]
pub enum Left {
    /// What the roll left there.
    AsItIs,
    /// What stood there before.
    Old,
    /// Bytes that a client wrote elsewhere.
    Foreign,
    /// The beginning of the new header, and then other bytes.
    Torn,
}

/// Rolls with a record queued, where a call fails and a crash leaves this. Then the image is opened
/// and goes on. Answers what its trail said before that and at the end.
pub fn crash_a_roll(
    alloc: Global,
    failing: Failing,
    left: Left,
) -> Result<(Point, Point), TrialFault> {
    let (past, mut disk) = fail_a_roll(alloc, failing)?;
    leave(&mut disk, left)?;
    let trail = scan(alloc, &mut disk)?;
    let past = told(past, &trail)?;
    let found = past.last()?;
    let end = go_on(alloc, Run::open(alloc, disk, &trail, past)?)?;
    Ok((found, end))
}

// How many calls of the device a run makes up to its roll.
fn calls_of_a_roll(alloc: Global) -> Result<u64, TrialFault> {
    let mut run = filled(alloc, Disk::new(alloc, BLOCKS, 0)?)?;
    run.step(Step::Roll)?;
    let (_past, disk) = run.end();
    Ok(disk.calls())
}

// A run with a record queued and no room for a long one.
fn filled(alloc: Global, disk: Disk) -> Result<Run, TrialFault> {
    let mut run = Run::new(alloc, disk)?;
    run.step(Step::Push(1024))?;
    run.step(Step::Sync)?;
    run.step(Step::Push(2))?;
    Ok(run)
}

// Makes the run with its roll failing, which the roll has to answer.
fn fail_a_roll(alloc: Global, failing: Failing) -> Result<(Past, Disk), TrialFault> {
    let calls = calls_of_a_roll(alloc)?;
    let nth = match failing {
        Failing::Write => calls.saturating_sub(1),
        Failing::Sync => calls,
    };
    let mut run = filled(alloc, Disk::new(alloc, BLOCKS, nth)?)?;
    if run.step(Step::Roll) != Err(TrialFault::Reserve(ReserveFault::DeviceFault)) {
        return Err(TrialFault::Wrong("a roll"));
    }
    let (past, disk) = run.end();
    if (disk.held(HEADER) != 0) != (failing == Failing::Sync) {
        return Err(TrialFault::Wrong("the call that failed"));
    }
    Ok((past, disk))
}

// Makes the block of the new header what a crash leaves of it.
fn leave(disk: &mut Disk, left: Left) -> Result<(), TrialFault> {
    match left {
        Left::AsItIs => {}
        Left::Old => disk.hold(HEADER, 0),
        Left::Foreign => {
            let number = disk.held(CLIENTS);
            disk.hold(HEADER, number);
        }
        Left::Torn => tear(disk)?,
    }
    Ok(())
}

// Changes the header behind its beginning.
fn tear(disk: &mut Disk) -> Result<(), TrialFault> {
    if disk.blocks() <= HEADER {
        return Err(TrialFault::Unfit);
    }
    let mut bytes = [0; BLOCK_BYTES];
    disk.read(Paddr(HEADER), &mut bytes)?;
    for byte in bytes.iter_mut().skip(TORN) {
        *byte = !*byte;
    }
    disk.write(Paddr(HEADER), &bytes)?;
    Ok(())
}

// The past of an image with this trail, which has the new header behind its last record, or hasn't.
fn told(mut past: Past, trail: &Trail) -> Result<Past, TrialFault> {
    let last = past.last()?;
    if trail.seq > last.seq {
        past.add_header(Point {
            segment: 1,
            seq: 2,
            end: HEADER + 1,
            ..last
        })?;
    }
    if !past.is_told_by(trail) {
        return Err(TrialFault::Wrong("the image of a crash"));
    }
    Ok(past)
}

// Pushes records, the last one into segment 1, and scans what stands.
fn go_on(alloc: Global, mut run: Run) -> Result<Point, TrialFault> {
    run.step(Step::Push(2))?;
    run.make_room()?;
    run.step(Step::Push(1024))?;
    run.step(Step::Sync)?;
    let (past, mut disk) = run.end();
    let trail = scan(alloc, &mut disk)?;
    if !past.is_told_by(&trail) {
        return Err(TrialFault::Wrong("what stands"));
    }
    past.last()
}
