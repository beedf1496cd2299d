//! What operations weigh, each at the edge of what a request or a script may.

use crate::tests::texts::{printed, repeated};
use std::alloc::{AllocError, Global};
use std::fmt::Write;
use std::process::Abort;
use std::test::Fail;

// What each operation weighs among the changes of keys, of which a request may have 32.
const KEYS: &[(&str, u32)] = &[
    ("touch a", 1),
    ("write a 0 x0102", 1),
    ("zero a 0 5000", 1),
    ("setattr a k x", 1),
    ("rmattr a k", 1),
    ("remove a", 8),
    ("truncate a 0", 8),
    ("rmattrs a", 8),
    ("omap_clear a", 8),
    ("omap_setkeys a k x m x", 2),
    ("omap_setkeys a k x k x k x", 3),
    ("omap_rmkeys a k k m", 3),
    ("omap_rmkeyrange a m k 31", 31),
];

#[test]
fn changes_of_keys_weigh_32(rt: HostRuntime) -> Result<(), Fail> {
    for (operation, weight) in KEYS {
        let left = 32u32.saturating_sub(*weight);
        check(
            &rt,
            rt.alloc(),
            "omap_rmkeyrange a k m",
            left,
            operation,
            "TooManyKeys",
        )?;
    }
    let text = printed(
        rt.alloc(),
        "1 touch a\n1 omap_rmkeyrange a k m 32 ; read a 0 1 ; stat a ; getattr a k ; getattrs a \
         ; omap_get a k ; omap_list a 64 ; list 64",
    )?;
    assert!(rt;
        text.as_str()
            .ends_with("\n1 2 done n0 x n0 none p0 none p0 l1 a\nend 2 0\n")
    );
    Ok(())
}

// How many blocks each operation counts, of which a request may have 64.
const BLOCKS: &[(&str, u32)] = &[
    ("write a 4095 x01", 1),
    ("write a 4095 x0102", 2),
    ("zero a 4096 4096", 1),
    ("zero a 0 4097", 2),
    ("zero a 4095 4098", 3),
    ("truncate a 16777216", 1),
];

#[test]
fn writes_count_64_blocks(rt: HostRuntime) -> Result<(), Fail> {
    for (operation, blocks) in BLOCKS {
        let left = 262_144u32.saturating_sub(blocks.saturating_mul(4_096));
        check(
            &rt,
            rt.alloc(),
            "zero a 0",
            left,
            operation,
            "TooManyBlocks",
        )?;
    }
    Ok(())
}

// The first operation with this number is taken beside the other one, and with one more is not.
fn check(
    rt: &impl Abort,
    alloc: Global,
    first: &str,
    number: u32,
    operation: &str,
    why: &str,
) -> Result<(), Fail> {
    let script = format!(in alloc; "1 {first} {number} ; {operation}")?;
    let text = printed(alloc, script.as_str())?;
    assert!(rt; text.as_str().starts_with("1 1 "), "{script}");
    let number = number.saturating_add(1);
    let script = format!(in alloc; "1 {first} {number} ; {operation}")?;
    let text = printed(alloc, script.as_str())?;
    let expected = format!(in alloc; "script 1 {why}\n")?;
    assert_eq!(rt; text.as_str(), expected.as_str(), "{script}");
    Ok(())
}

// So many lines of reads that weigh 2^20 bytes each, and these behind them.
fn heavy_reads(alloc: Global, count: u32, behind: &str) -> Result<String, AllocError> {
    let more = repeated(alloc, 15, " ; read a 0 65536", "\n")?;
    let line = format!(in alloc; "1 read a 0 65536{more}")?;
    repeated(alloc, count, line.as_str(), behind)
}

#[test]
fn reads_weigh_2_30_bytes(rt: HostRuntime) -> Result<(), Fail> {
    let enough = heavy_reads(
        rt.alloc(),
        1_024,
        "1 touch a ; omap_rmkeyrange a k m 9 ; stat a",
    )?;
    let text = printed(rt.alloc(), enough.as_str())?;
    assert!(rt;
        text.as_str()
            .ends_with("\n1 1025 done - n0 n0\nend 1025 0\n")
    );
    let script = heavy_reads(rt.alloc(), 1_024, "2 read a 0 1")?;
    let text = printed(rt.alloc(), script.as_str())?;
    assert_eq!(rt; text.as_str(), "script 1025 TooMuchRead\n");
    Ok(())
}

// What each operation's read weighs.
const READS: &[(&str, u32)] = &[
    ("read a 16777216 65536", 65_536),
    ("getattr a k", 1_024),
    ("getattrs a", 73_728),
    ("omap_get a k", 1_024),
    ("omap_list a 1", 1_152),
    ("omap_list a 64 k", 73_728),
    ("list 1", 64),
    ("list 64 a", 4_096),
];

// Lines of reads, with the operation and one more weigh 2^30 bytes and so many more.
fn reads_with(
    alloc: Global,
    operation: &str,
    weight: u32,
    more: u32,
) -> Result<String, AllocError> {
    let left = 131_072u32.saturating_sub(weight);
    let half = left / 2;
    let other = half.saturating_add(more);
    let most = repeated(alloc, 14, "2 read a 0 65536\n", "")?;
    let behind = format!(in alloc; "{most}3 read a 0 {half} ; read a 0 {other} ; {operation}\n")?;
    heavy_reads(alloc, 1_023, behind.as_str())
}

#[test]
fn each_read_has_its_weight(rt: HostRuntime) -> Result<(), Fail> {
    for (operation, weight) in READS {
        let script = reads_with(rt.alloc(), operation, *weight, 0)?;
        let text = printed(rt.alloc(), script.as_str())?;
        assert!(rt; text.as_str().ends_with("\nend 1038 0\n"), "{operation}");
        let script = reads_with(rt.alloc(), operation, *weight, 1)?;
        let text = printed(rt.alloc(), script.as_str())?;
        assert_eq!(rt; text.as_str(), "script 1038 TooMuchRead\n", "{operation}");
    }
    Ok(())
}

#[test]
fn requests_are_counted_before_their_reads_are_weighed(rt: HostRuntime) -> Result<(), Fail> {
    for (line, why) in [
        ("1 read a 0 1", "TooManyRequests"),
        ("2 read a 0 1", "TooMuchRead"),
    ] {
        let behind = repeated(rt.alloc(), 8_976, "1 stat a\n", line)?;
        let script = heavy_reads(rt.alloc(), 1_024, behind.as_str())?;
        let expected = format!(in rt.alloc(); "script 10001 {why}\n")?;
        let text = printed(rt.alloc(), script.as_str())?;
        assert_eq!(rt; text.as_str(), expected.as_str());
    }
    Ok(())
}
