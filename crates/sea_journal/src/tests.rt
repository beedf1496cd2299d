use super::*;
use sea_base::{NoMemory, Nths, Paddr};
use sea_device::{Fails, MemDevice};
use std::alloc::Global;
use std::test::Fail;

// The blocks of six segments.
const BLOCKS: u32 = 12_289;

const FAULT: Result<(), MkfsFault> = Err(MkfsFault::DeviceFault);

fn device(alloc: Global, blocks: u32, fails: Fails) -> Result<MemDevice, NoMemory> {
    MemDevice::new(alloc, blocks, 16, 65_536, fails)
}

fn listed(alloc: Global, nths: &[u64]) -> Result<Nths, NoMemory> {
    let mut listed = Nths::new(alloc);
    for nth in nths {
        listed.push(*nth)?;
    }
    Ok(listed)
}

fn not_empty(at: u32) -> Result<(), MkfsFault> {
    Err(MkfsFault::NotEmpty { block: Paddr(at) })
}

#[test]
fn mkfs_answers(rt: HostRuntime) -> Result<(), Fail> {
    let alloc = rt.alloc();
    let mut short = device(alloc, 5, Fails::none(alloc))?;
    let refused = MkfsFault::Short {
        have: 5,
        need: BLOCKS,
    };
    assert_eq!(rt; mkfs(alloc, &mut short, 6), Err(refused));
    let mut fresh = device(alloc, BLOCKS, Fails::none(alloc))?;
    assert_eq!(rt; mkfs(alloc, &mut fresh, 6), Ok(()));
    assert_eq!(rt; mkfs(alloc, &mut fresh, 6), not_empty(0));
    Ok(())
}

// Of its seven reads the first and the last fail, then a write, then the sync of the header.
#[test]
fn a_call_of_mkfs_fails(rt: HostRuntime) -> Result<(), Fail> {
    let alloc = rt.alloc();
    let fails = Fails {
        reads: listed(alloc, &[1, 8])?,
        writes: listed(alloc, &[1])?,
        syncs: listed(alloc, &[1])?,
    };
    let mut failing = device(alloc, BLOCKS, fails)?;
    for _ in 0..4 {
        assert_eq!(rt; mkfs(alloc, &mut failing, 6), FAULT);
    }
    assert_eq!(rt; mkfs(alloc, &mut failing, 6), not_empty(1));
    Ok(())
}

#[test]
fn the_superblock_comes_last(rt: HostRuntime) -> Result<(), Fail> {
    let alloc = rt.alloc();
    let mut fails = Fails::none(alloc);
    fails.writes = listed(alloc, &[2])?;
    let mut failing = device(alloc, BLOCKS, fails)?;
    assert_eq!(rt; mkfs(alloc, &mut failing, 6), FAULT);
    assert_eq!(rt; mkfs(alloc, &mut failing, 6), not_empty(1));
    Ok(())
}
