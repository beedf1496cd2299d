//! Records of placed blocks, pushed and synced, and their bytes hashed twice.
ghost use Rattle.std.specs.Prelude.{◌≡◌, ℕ, ◌<◌, ◌≤◌, IfOk};
ghost use Rattle.sea_record.specs.Record.{IsPlaced};
ghost use Rattle.sea_journal_trial.specs.Bodies.{ArePlaced, MayGo};

use crate::bodies::empty_root;
use crate::calls::{NextTail, append, free, resumed};
use crate::fault::TrialFault;
use crate::running::{BLOCKS, SEGMENTS};
use sea_base::{
    BLOCK_BYTES, Block, Commit, Data, Digest, Laddr, NoMemory, Sequence, digest_of, sum_of,
};
use sea_device::SteadyDevice;
use sea_journal::{Journal, mkfs};
use sea_record::{Body, Kind, Placed};
use sea_trail::scan;
use std::alloc::Global;

// How many blocks a record places.
const PLACED: u64 = 17;

// How many blocks it has in all, with its header and its metadata.
const RECORD_BLOCKS: usize = 19;

// The next address, above those that are placed.
const NEXT: u64 = 1000;

/// Pushes so many records of 17 placed blocks, and syncs each.
pub fn push_records(alloc: Global, count: u32) -> Result<u64, TrialFault> {
    let mut journal = begun(alloc)?;
    let block = Block::new(alloc, &[7; BLOCK_BYTES])?;
    let mut open = 0;
    for _ in 0..count {
        let commit = journal.commit().0.saturating_add(1);
        let body = placed_body(alloc, commit, &block)?;
        let before = journal.seq();
        append(&mut journal, commit, body, NextTail::Own, empty_root(NEXT))?;
        journal.sync()?;
        if journal.seq() != before {
            free(&mut journal, open)?;
            open = 1 - open.min(1);
        }
    }
    Ok(journal.commit().0)
}

// A journal on a fresh image.
fn begun(alloc: Global) -> Result<Journal<SteadyDevice>, TrialFault> {
    let mut device = SteadyDevice::new(alloc, BLOCKS)?;
    mkfs(alloc, &mut device, SEGMENTS)?;
    let trail = scan(alloc, &mut device)?;
    match resumed(alloc, device, &trail) {
        Ok(journal) => Ok(journal),
        Err((_device, fault)) => Err(fault),
    }
}

/// Hashes the blocks of as many records twice.
pub fn hash_records(alloc: Global, count: u32) -> Result<u64, TrialFault> {
    let bytes = vec![in alloc; 7; BLOCK_BYTES * RECORD_BLOCKS]?;
    let mut hashed = 0u64;
    for _ in 0..count {
        for _ in 0..2 {
            if digest_of(&bytes) != Digest([0; 32]) {
                hashed = hashed.saturating_add(1);
            }
        }
    }
    Ok(hashed)
}

// The body of a record with this number that places a block at 17 addresses.
fn placed_body(alloc: Global, commit: u64, block: &Block) -> Result<Body, NoMemory>
    ensures { IfOk result (MayGo commit 1000) }
{
    Ok(Body {
        kind: Kind::Client,
        placed: placings(alloc, commit, block)?,
        nodes: Sequence::new(alloc),
        dropped: Sequence::new(alloc),
        changes: Sequence::new(alloc),
        plain: Data::new(alloc, &[])?,
    })
}

// A block placed at 17 addresses, from 1 on.
fn placings(alloc: Global, commit: u64, block: &Block) -> Result<Sequence<Placed>, NoMemory>
    ensures { IfOk result (ArePlaced commit 17) }
{
    let mut placed = Sequence::new(alloc);
    for i in 0..PLACED {
        placed.push(placing(i + 1, commit, block)?)?;
    }
    Ok(placed)
}

// A block placed at an address.
fn placing(at: u64, commit: u64, block: &Block) -> Result<Placed, NoMemory>
    ensures fits { IfOk result IsPlaced }
    ensures said { IfOk result (λ p. (p.at.0 ≡ at) × (p.version.0 ≡ commit)) }
{
    Ok(Placed {
        at: Laddr(at),
        version: Commit(commit),
        sum: sum_of(block),
        block: block.share()?,
    })
}
