use super::twin::Twin;
use super::{empty_tree, filled};
use crate::fault::TrialFault;
use crate::map_tree::MapTree;
use sea_base::Key;
use std::alloc::Global;
use std::process::Abort;

const PAIRS: u64 = 4000;

// The key of 64 digits of this number's place in an order that is none of the numbers'.
fn digits(alloc: Global, number: u64, stride: u64) -> Result<Key, TrialFault> {
    let place = number.wrapping_mul(stride) % PAIRS;
    let text = format!(in alloc; "{place:064}")?;
    Ok(Key::new(alloc, text.as_bytes())?)
}

// Puts the pair of a number, whose value has 1,024 bytes.
fn put_number(
    rt: &impl Abort,
    alloc: Global,
    twin: &mut Twin,
    number: u64,
) -> Result<(), TrialFault> {
    let key = digits(alloc, number, 1237)?;
    let value = filled(alloc, 7, 1024)?;
    twin.put(rt, key, value)
}

// Puts pairs until the tree has four levels, which come one after the other, and answers how many pairs.
fn grow(rt: &impl Abort, alloc: Global, twin: &mut Twin) -> Result<u64, TrialFault> {
    let mut level = 0u8;
    for number in 0..PAIRS {
        put_number(rt, alloc, twin, number)?;
        twin.check(rt)?;
        let now = twin.level()?;
        assert!(rt; now == level || now == level.saturating_add(1));
        level = now;
        if level == 3 {
            return Ok(number + 1);
        }
    }
    Ok(0)
}

// Takes all pairs out, in another order, and checks the tree at each tenth.
fn shrink(rt: &impl Abort, alloc: Global, twin: &mut Twin) -> Result<(), TrialFault> {
    for number in 0..PAIRS {
        let key = digits(alloc, number, 3301)?;
        twin.del(rt, &key)?;
        if number % 10 == 0 {
            twin.check(rt)?;
        }
    }
    Ok(())
}

#[test]
fn long_pairs_make_a_tall_tree(rt: HostRuntime) -> Result<(), TrialFault> {
    let alloc = rt.alloc();
    let mut twin = Twin::new(alloc);
    assert!(rt; grow(&rt, alloc, &mut twin)? > 1000);
    shrink(&rt, alloc, &mut twin)?;
    assert!(rt; twin.list().pairs().is_empty());
    twin.check(&rt)
}

// A tree of four levels.
fn tall_tree(alloc: Global) -> Result<MapTree, TrialFault> {
    let mut tree = empty_tree(alloc);
    let value = filled(alloc, 7, 1024)?;
    for number in 0..PAIRS {
        tree.put(&digits(alloc, number, 1237)?, &value)?;
    }
    Ok(tree)
}

#[test]
fn each_call_is_made_of_a_tall_tree(rt: HostRuntime) -> Result<(), TrialFault> {
    let alloc = rt.alloc();
    let mut tree = tall_tree(alloc)?;
    assert!(rt; tree.level()? == 3 && tree.check()?.pairs == PAIRS);
    let key = digits(alloc, 2026, 1237)?;
    assert!(rt; tree.get(&key)?.is_some() && tree.range(None, 5000)?.items().len() == 4000);
    assert!(rt; tree.del(&key)?.is_some() && tree.get(&key)?.is_none());
    tree.drop_all()?;
    assert!(rt; tree.check()?.nodes == 0);
    Ok(())
}
