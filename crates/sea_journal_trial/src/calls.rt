//! Calls of a journal, each asked for as it may be.
ghost use Rattle.std.specs.Prelude.{◌≡◌, ◌+◌, ◌≤◌, length, IfOk};
ghost use Rattle.sea_journal_trial.specs.Bodies.{MayGo};

use crate::fault::TrialFault;
use sea_base::{Block, Commit, Paddr, Root, Sum, Tail, is_root, is_tail};
use sea_device::Device;
use sea_journal::{Journal, ResumeFault, Who, can_resume};
use sea_record::{Body, size};
use sea_segment::{SegState, Table};
use sea_trail::{SEGMENT_BLOCKS, Trail};
use std::alloc::Global;

const LIMIT: u64 = 1 << 62;

/// Which record the next one names as the tail.
#[derive(Clone, Copy, Debug, PartialEq, Eq)]
pub enum NextTail {
    /// The one that the last record named.
    Stays,
    /// Itself.
    Own,
}

/// The table of an image in which no block is live.
pub fn table_of(alloc: Global, trail: &Trail) -> Result<Table, TrialFault>
    ensures { IfOk result (λ table. length table ≡ trail.now.segments) }
{
    let mut table = Table::new(alloc, trail.segments)?;
    for header in trail.headers.items() {
        if header.segment < table.len() && header.seq >= trail.tail.seq {
            table.set(header.segment, SegState::Closed { seq: header.seq });
        }
    }
    if trail.active < table.len() {
        table.set(trail.active, SegState::Active { seq: trail.seq });
    }
    if table.len() != trail.segments {
        return Err(TrialFault::Unfit);
    }
    Ok(table)
}

/// A journal behind the trail of a device. Where it fails, it hands the device back with the cause.
pub fn resumed<D: Device>(
    alloc: Global,
    device: D,
    trail: &Trail,
) -> Result<Journal<D>, (D, TrialFault)> {
    let table = match table_of(alloc, trail) {
        Ok(table) => table,
        Err(fault) => return Err((device, fault)),
    };
    if !can_resume(trail, device.blocks()) {
        return Err((device, TrialFault::Unfit));
    }
    match Journal::resume(alloc, device, trail, table) {
        Ok(journal) => Ok(journal),
        Err((device, fault)) => Err((device, TrialFault::Resume(fault))),
    }
}

/// Reserves a place for so many blocks.
pub fn reserve<D: Device>(journal: &mut Journal<D>, need: u32) -> Result<Paddr, TrialFault> {
    if need > 1024 || journal.seq() >= LIMIT {
        return Err(TrialFault::Unfit);
    }
    Ok(journal.reserve(need, Who::House)?)
}

/// Reserves a place for a record with this body and queues it there, and answers the place. The
/// record has this number.
pub fn append<D: Device>(
    journal: &mut Journal<D>,
    commit: u64,
    body: Body,
    next_tail: NextTail,
    root: Root,
) -> Result<Paddr, TrialFault>
    requires { MayGo commit root.next.0 body }
{
    if journal.seq() >= LIMIT {
        return Err(TrialFault::Unfit);
    }
    let at = journal.reserve(size(&body), Who::House)?;
    let tail = match next_tail {
        NextTail::Stays => journal.tail(),
        NextTail::Own => Tail {
            seq: journal.seq(),
            place: at,
        },
    };
    let (seq, mount) = (journal.seq(), journal.mount());
    let last = journal.commit();
    if seq < 1 || seq >= LIMIT || mount < 1 || mount >= LIMIT || last.0 >= LIMIT {
        return Err(TrialFault::Unfit);
    }
    if last.0 + 1 != commit || !is_tail(tail) || !is_root(root) {
        return Err(TrialFault::Unfit);
    }
    let Commit(given) = journal.push(body, tail, root)?;
    if given != commit {
        return Err(TrialFault::Wrong("the number of a record"));
    }
    Ok(at)
}

/// Frees a segment, once what is queued is synced.
pub fn free<D: Device>(journal: &mut Journal<D>, segment: u32) -> Result<(), TrialFault> {
    journal.sync()?;
    let before = journal.tail().seq;
    let table = journal.table();
    if segment >= table.len()
        || table.live(segment) != 0
        || !table.state(segment).is_closed_before(before)
    {
        return Err(TrialFault::Unfit);
    }
    journal.free(segment);
    Ok(())
}

/// The block at a place.
pub fn block<D: Device>(
    journal: &mut Journal<D>,
    at: Paddr,
    sum: Sum,
) -> Result<Block, TrialFault> {
    if at.0 as u64 >= SEGMENT_BLOCKS as u64 * journal.table().len() as u64 {
        return Err(TrialFault::Unfit);
    }
    Ok(journal.block(at, sum)?)
}
