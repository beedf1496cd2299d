//! Pairs put into a tree in memory and taken out again, and counted.
ghost use Rattle.std.specs.Prelude.{◌+◌, ◌*◌, ◌-◌, ◌^◌, ◌≤◌, length, IfOk};
ghost use Rattle.std.specs.List.{All};
ghost use Rattle.sea_base.specs.MapSpace.{seen_of};

use crate::{set, unset};
use sea_base::{Data, Key, Laddr, MapSpace, Names, NoMemory, Nths, Pairs, SpaceFault};
use sea_node::VALUE_BYTES;
use sea_tree::{Checked, TreeFault, check};
use std::alloc::Global;
use std::process::Abort;
use std::test::Fail;

const ROOT: Laddr = Laddr(1);

const FAILED: Result<u32, TreeFault> = Err(TreeFault::Space(SpaceFault::DeviceFault));

// A tree in a space in memory.
#[derive(Drop)]
struct Omap {
    alloc: Global,
    space: MapSpace,
    calls: u32,
    ghost low: { (seen_of space).next ≤ 2 + calls * 2 ^ 21 },
}

impl Omap {
    // An empty tree, in a space whose listed gets fail.
    fn new(alloc: Global, listed: &[u64]) -> Result<Omap, NoMemory> {
        let mut fails = Nths::new(alloc);
        for nth in listed {
            fails.push(*nth)?;
        }
        Ok(Omap {
            alloc,
            space: MapSpace::new(alloc, fails),
            calls: 0,
        })
    }

    fn set(&mut self, pairs: &Pairs) -> Result<u32, TreeFault>
        requires few { length pairs.now ≤ 4096 }
        requires values { All (λ pair. length pair.1 ≤ VALUE_BYTES) pairs.now }
    {
        self.calls = self.calls.checked_add(1).ok_or(NoMemory)?;
        set(self.alloc, &mut self.space, ROOT, pairs)
    }

    fn unset(&mut self, keys: &Names) -> Result<u32, TreeFault>
        requires { length keys.now ≤ 4096 }
    {
        self.calls = self.calls.checked_add(1).ok_or(NoMemory)?;
        unset(self.alloc, &mut self.space, ROOT, keys)
    }

    fn checked(&mut self) -> Result<Checked, TreeFault> {
        check(self.alloc, &mut self.space, ROOT)
    }
}

fn key_of(alloc: Global, number: u32) -> Result<Key, Fail> {
    let text = format!(in alloc; "k{number}")?;
    Ok(Key::new(alloc, text.as_bytes())?)
}

// The pairs of some numbers, all with one value.
fn pairs_of(alloc: Global, numbers: &[u32], value: &[u8]) -> Result<Pairs, Fail>
    requires { length value.now ≤ VALUE_BYTES }
    ensures { IfOk result (λ pairs. (length pairs ≤ length numbers.now)
        × All (λ pair. length pair.1 ≤ VALUE_BYTES) pairs) }
{
    let mut pairs = Pairs::new(alloc);
    for number in numbers {
        pairs.push((key_of(alloc, *number)?, Data::new(alloc, value)?))?;
    }
    Ok(pairs)
}

fn keys_of(alloc: Global, numbers: &[u32]) -> Result<Names, Fail>
    ensures { IfOk result (λ keys. length keys ≤ length numbers.now) }
{
    let mut keys = Names::new(alloc);
    for number in numbers {
        keys.push(key_of(alloc, *number)?)?;
    }
    Ok(keys)
}

#[test]
fn a_key_that_comes_twice_is_counted_once(rt: HostRuntime) -> Result<(), Fail> {
    let alloc = rt.alloc();
    let mut omap = Omap::new(alloc, &[])?;
    assert_eq!(rt; omap.set(&pairs_of(alloc, &[1, 2, 1], b"old")?)?, 2);
    assert_eq!(rt; omap.set(&pairs_of(alloc, &[2, 3], b"new")?)?, 1);
    assert_eq!(rt; omap.unset(&keys_of(alloc, &[1, 9, 1])?)?, 1);
    assert_eq!(rt; omap.checked()?.pairs, 2);
    Ok(())
}

#[test]
fn keys_go_and_two_leaves_join(rt: HostRuntime) -> Result<(), Fail> {
    let alloc = rt.alloc();
    let mut omap = Omap::new(alloc, &[])?;
    assert_eq!(rt; omap.set(&pairs_of(alloc, &[1, 2, 3, 4], &[7; 1024])?)?, 4);
    assert_eq!(rt; omap.checked()?.nodes, 3);
    assert_eq!(rt; omap.unset(&keys_of(alloc, &[1, 2])?)?, 2);
    assert_eq!(rt; omap.checked()?, Checked { pairs: 2, nodes: 1 });
    Ok(())
}

// The pair before the get that failed stands, and no later one.
#[test]
fn a_failed_get_ends_the_call(rt: HostRuntime) -> Result<(), Fail> {
    let alloc = rt.alloc();
    let pairs = pairs_of(alloc, &[1, 2, 3], b"v")?;
    for (nth, left) in [(1, 0), (2, 1)] {
        let mut omap = Omap::new(alloc, &[nth])?;
        assert_eq!(rt; omap.set(&pairs), FAILED);
        assert_eq!(rt; omap.checked()?.pairs, left);
    }
    Ok(())
}

#[test]
fn ten_thousand_keys(rt: HostRuntime) -> Result<(), Fail> {
    let alloc = rt.alloc();
    let mut omap = Omap::new(alloc, &[])?;
    let numbers: Vec<u32> = (0..10_000).collect(alloc)?;
    for some in numbers.chunks(1_000) {
        assert_eq!(rt; omap.set(&pairs_of(alloc, some, b"v")?)?, 1_000);
    }
    assert_eq!(rt; omap.set(&pairs_of(alloc, &[9_999, 10_000], b"w")?)?, 1);
    assert_eq!(rt; omap.checked()?.pairs, 10_001);
    Ok(())
}
