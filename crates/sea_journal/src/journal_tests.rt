//! What no clause of the journal says: that its calls succeed, and on which bytes.
ghost use Rattle.std.specs.Prelude.{◌≡◌, ◌≤◌, length, IfOk};
ghost use Rattle.sea_journal.specs.Resume.{IsBare};

use super::*;
use crate::fit::{is_root, is_tail};
use sea_base::{Commit, Data, NoMemory, Nths, Paddr, Root, Sequence, SpaceFault, Sum, Tail};
use sea_device::{Device, Failed, Fails, MemDevice};
use sea_record::{Body, Kind};
use sea_segment::{SegState, Table};
use sea_trail::{Trail, scan};
use std::alloc::Global;
use std::process::Abort;
use std::test::Fail;

// The blocks of six segments.
const BLOCKS: u32 = 12_289;

const LIMIT: u64 = 1 << 62;

// A device with a fresh image, of whose syncs one will fail: the first is that of a mount record.
fn fresh(alloc: Global, failing: u64) -> Result<MemDevice, Fail>
    requires { failing ≤ 9 }
{
    let mut fails = Fails::none(alloc);
    let mut syncs = Nths::new(alloc);
    syncs.push(failing + 2)?;
    fails.syncs = syncs;
    let mut device = MemDevice::new(alloc, BLOCKS, 64, 1 << 24, fails)?;
    mkfs(alloc, &mut device, 6)?;
    Ok(device)
}

// The journal that goes on behind the trail of a device, and that trail.
fn begun(
    rt: &impl Abort,
    alloc: Global,
    mut device: MemDevice,
) -> Result<(Journal<MemDevice>, Trail), Fail> {
    let trail = scan(alloc, &mut device)?;
    assert!(rt; can_resume(&trail, device.blocks()));
    let mut table = Table::new(alloc, trail.segments)?;
    assert!(rt; trail.active < table.len());
    table.set(trail.active, SegState::Active { seq: trail.seq });
    match Journal::resume(alloc, device, &trail, table) {
        Ok(journal) => Ok((journal, trail)),
        Err((_device, fault)) => Err(fault.into()),
    }
}

// The body of a plain record of three bytes, which takes two blocks.
fn plain(alloc: Global, bytes: &[u8; 3]) -> Result<Body, NoMemory>
    ensures { IfOk result IsBare }
{
    Ok(Body {
        kind: Kind::Plain,
        placed: Sequence::new(alloc),
        nodes: Sequence::new(alloc),
        dropped: Sequence::new(alloc),
        changes: Sequence::new(alloc),
        plain: Data::new(alloc, bytes)?,
    })
}

// The body of a record of nodes without any, which takes one block.
fn bare(alloc: Global) -> Result<Body, NoMemory>
    ensures { IfOk result IsBare }
{
    Ok(Body {
        kind: Kind::Nodes,
        placed: Sequence::new(alloc),
        nodes: Sequence::new(alloc),
        dropped: Sequence::new(alloc),
        changes: Sequence::new(alloc),
        plain: Data::new(alloc, &[])?,
    })
}

// Queues a record with this tail and these roots, once a place for it is reserved.
fn push(
    rt: &impl Abort,
    journal: &mut Journal<MemDevice>,
    tail: Tail,
    root: Root,
    body: Body,
) -> Result<Commit, Fail>
    requires { IsBare body }
{
    assert!(rt; is_tail(&tail));
    assert!(rt; is_root(&root));
    assert!(rt; journal.seq() < LIMIT);
    journal.reserve(2, Who::House)?;
    let mount = journal.mount();
    assert!(rt; mount >= 1);
    assert!(rt; mount < LIMIT);
    let seq = journal.seq();
    assert!(rt; seq >= 1);
    assert!(rt; seq < LIMIT);
    let last = journal.commit();
    assert!(rt; last.0 < LIMIT);
    Ok(journal.push(body, tail, root)?)
}

// Makes unsynced blocks what they were before, zeros, as a crash may leave them.
fn lose(rt: &impl Abort, device: &mut MemDevice, places: &[u32]) -> Result<(), Failed> {
    for at in places {
        assert!(rt; device.is_unsynced(device.clock(), Paddr(*at)));
        assert!(rt; *at < device.blocks());
        device.write(Paddr(*at), &[0; 4096])?;
    }
    Ok(())
}

// The sum of the first block behind the mount record, which the journal tells of a wrong one.
fn sum_behind(journal: &mut Journal<MemDevice>) -> Sum {
    match journal.block(Paddr(3), Sum(0)) {
        Err(SpaceFault::Damaged { found, .. }) => found,
        _ => Sum(0),
    }
}

// How many openings and records the trail of a device counts, and where it ends.
fn counts(alloc: Global, device: &mut MemDevice) -> Result<(u64, u64, u32), Fail> {
    let trail = scan(alloc, device)?;
    Ok((trail.mount, trail.commit.0, trail.end.0))
}

// Behind the mount record at block 2 records wait at the blocks 3, 4 and 6, whose sync fails.
fn unsynced(rt: &impl Abort, alloc: Global) -> Result<MemDevice, Fail> {
    let (mut journal, trail) = begun(rt, alloc, fresh(alloc, 2)?)?;
    push(rt, &mut journal, trail.tail, trail.root, bare(alloc)?)?;
    push(
        rt,
        &mut journal,
        trail.tail,
        trail.root,
        plain(alloc, b"one")?,
    )?;
    push(
        rt,
        &mut journal,
        trail.tail,
        trail.root,
        plain(alloc, b"two")?,
    )?;
    assert_eq!(rt; journal.sync(), Err(Failed));
    assert_eq!(rt; journal.unsynced(), 3);
    Ok(journal.close())
}

#[test]
fn a_batch_with_a_gap(rt: HostRuntime) -> Result<(), Fail> {
    let alloc = rt.alloc();
    let mut device = unsynced(&rt, alloc)?;
    assert_eq!(rt; counts(alloc, &mut device)?, (1, 4, 8));
    lose(&rt, &mut device, &[5])?;
    assert_eq!(rt; counts(alloc, &mut device)?, (1, 2, 4));
    lose(&rt, &mut device, &[3])?;
    assert_eq!(rt; counts(alloc, &mut device)?, (1, 1, 3));
    Ok(())
}

// The first record is lost, and the second stands. The next opening writes its mount record where
// the first was, and its zeros over the second's first block, which a crash takes back.
#[test]
fn a_stale_record_behind_a_torn_zero_block(rt: HostRuntime) -> Result<(), Fail> {
    let alloc = rt.alloc();
    let mut device = unsynced(&rt, alloc)?;
    lose(&rt, &mut device, &[3])?;
    let mut stale = [0; 4096];
    assert!(rt; device.blocks() > 4);
    device.read(Paddr(4), &mut stale)?;
    let (journal, _trail) = begun(&rt, alloc, device)?;
    let mut again = journal.close();
    assert_eq!(rt; counts(alloc, &mut again)?, (2, 2, 4));
    assert!(rt; again.blocks() > 4);
    again.write(Paddr(4), &stale)?;
    assert_eq!(rt; counts(alloc, &mut again)?, (2, 2, 4));
    Ok(())
}

#[test]
fn a_failed_sync_is_made_again(rt: HostRuntime) -> Result<(), Fail> {
    let alloc = rt.alloc();
    let (mut journal, trail) = begun(&rt, alloc, fresh(alloc, 2)?)?;
    assert_eq!(rt; journal.sync(), Ok(()));
    assert_eq!(rt;
        push(
            &rt,
            &mut journal,
            trail.tail,
            trail.root,
            plain(alloc, b"one")?
        )?,
        Commit(2)
    );
    let queued = sum_behind(&mut journal);
    assert!(rt; queued != Sum(0));
    assert_eq!(rt; journal.sync(), Err(Failed));
    assert_eq!(rt;
        push(
            &rt,
            &mut journal,
            trail.tail,
            trail.root,
            plain(alloc, b"two")?
        )?,
        Commit(3)
    );
    assert_eq!(rt; journal.sync(), Ok(()));
    assert_eq!(rt; journal.rest(), 2042);
    assert_eq!(rt; sum_behind(&mut journal), queued);
    let mut device = journal.close();
    assert_eq!(rt; counts(alloc, &mut device)?, (1, 3, 7));
    Ok(())
}
