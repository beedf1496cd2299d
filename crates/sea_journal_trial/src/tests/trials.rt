use crate::crashes::crash_each_write;
use crate::disk::Disk;
use crate::failing::fail_each_call;
use crate::past::Point;
use crate::rolling::{Failing, Left, crash_a_roll};
use crate::running::BLOCKS;
use sea_journal::{MkfsFault, mkfs};
use std::test::Fail;

// The images with more blocks lost are those of the program.
#[test]
fn each_crash_leaves_a_prefix(rt: HostRuntime) -> Result<(), Fail> {
    let report = crash_each_write(rt.alloc(), 2)?;
    assert_eq!(rt; report.records, 41);
    assert!(rt; report.images > 900);
    Ok(())
}

// Eleven of the calls are those of mkfs.
#[test]
fn each_call_fails_once(rt: HostRuntime) -> Result<(), Fail> {
    assert!(rt; fail_each_call(rt.alloc())? > 25);
    Ok(())
}

// Where the last record of a trail ends: its segment, the block behind it, and its number.
fn end_of(point: Point) -> (u32, u32, u64) {
    (point.segment, point.end, point.commit)
}

// The header stands, or the trail ends in the old segment, with the same records. Then records go
// on, and the last of them is in the new segment.
#[test]
fn a_crash_in_the_middle_of_a_roll(rt: HostRuntime) -> Result<(), Fail> {
    let alloc = rt.alloc();
    let (found, end) = crash_a_roll(alloc, Failing::Sync, Left::AsItIs)?;
    assert_eq!(rt; end_of(found), (1, 2050, 3));
    assert_eq!(rt; end_of(end), (1, 3077, 6));
    for (failing, left) in [
        (Failing::Sync, Left::Old),
        (Failing::Sync, Left::Foreign),
        (Failing::Sync, Left::Torn),
        (Failing::Write, Left::AsItIs),
        (Failing::Write, Left::Foreign),
    ] {
        let (found, end) = crash_a_roll(alloc, failing, left)?;
        assert_eq!(rt; end_of(found), (0, 1029, 3));
        assert_eq!(rt; end_of(end), (1, 3074, 6));
    }
    Ok(())
}

#[test]
fn a_device_is_short_of_the_most_segments(rt: HostRuntime) -> Result<(), Fail> {
    let alloc = rt.alloc();
    let mut disk = Disk::new(alloc, BLOCKS, 0)?;
    let short = MkfsFault::Short {
        have: 12_289,
        need: 16_775_169,
    };
    assert_eq!(rt; mkfs(alloc, &mut disk, 8191), Err(short));
    assert_eq!(rt; disk.calls(), 0);
    assert_eq!(rt; mkfs(alloc, &mut disk, 6), Ok(()));
    Ok(())
}
