use super::dice::Dice;
use super::filled;
use super::twin::Twin;
use crate::fault::TrialFault;
use sea_base::{Data, Duplicate, Key};
use std::alloc::Global;
use std::process::Abort;

// One of some hundred keys, of 1 to 64 bytes.
fn some_key(alloc: Global, dice: &mut Dice) -> Result<Key, TrialFault> {
    let mut bytes_of_key = Dice::new(dice.below(400));
    let mut bytes = Vec::new(alloc);
    for _ in 0..1 + bytes_of_key.below(64) {
        bytes.push(bytes_of_key.byte())?;
    }
    Ok(Key::new(alloc, &bytes)?)
}

// A value of 0 to 1,024 bytes.
fn some_value(alloc: Global, dice: &mut Dice) -> Result<Data, TrialFault> {
    let len = dice.below(1025) as usize;
    filled(alloc, dice.byte(), len)
}

// Makes one call, and checks the tree.
fn step(
    rt: &impl Abort,
    alloc: Global,
    twin: &mut Twin,
    dice: &mut Dice,
) -> Result<(), TrialFault> {
    let key = some_key(alloc, dice)?;
    let kind = dice.below(8);
    if kind < 4 {
        let value = some_value(alloc, dice)?;
        twin.put(rt, key, value)?;
    } else {
        ask(rt, twin, &key, kind, dice.byte())?;
    }
    twin.check(rt)
}

// Makes a call that puts nothing.
fn ask(
    rt: &impl Abort,
    twin: &mut Twin,
    key: &Key,
    kind: u64,
    limit: u8,
) -> Result<(), TrialFault> {
    match kind {
        4 | 5 => twin.del(rt, key),
        6 => twin.get(rt, key),
        _ => twin.range(rt, key, limit),
    }
}

// Takes out a pair that is there, if one is.
fn take_one(rt: &impl Abort, twin: &mut Twin, dice: &mut Dice) -> Result<bool, TrialFault> {
    let pairs = twin.list().pairs();
    if pairs.is_empty() {
        return Ok(false);
    }
    let key = pairs[dice.below(pairs.len() as u64) as usize].0.copy()?;
    twin.del(rt, &key)?;
    twin.check(rt)?;
    Ok(true)
}

// Takes all pairs out, one after the other.
fn drain(rt: &impl Abort, twin: &mut Twin, dice: &mut Dice) -> Result<(), TrialFault> {
    for _ in 0..400 {
        if !take_one(rt, twin, dice)? {
            return Ok(());
        }
    }
    Ok(())
}

#[test]
fn a_tree_answers_as_a_plain_list(rt: HostRuntime) -> Result<(), TrialFault> {
    let alloc = rt.alloc();
    let mut dice = Dice::new(2026);
    let mut twin = Twin::new(alloc);
    for _ in 0..3000 {
        step(&rt, alloc, &mut twin, &mut dice)?;
    }
    assert!(rt; twin.list().pairs().len() > 200);
    twin.compare(&rt)?;
    drain(&rt, &mut twin, &mut dice)?;
    assert!(rt; twin.list().pairs().is_empty());
    Ok(())
}
