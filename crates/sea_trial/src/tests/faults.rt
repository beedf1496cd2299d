use super::{bytes_at, del_letter, empty_tree, filled, put_letter, put_letters, repeated};
use crate::fault::TrialFault;
use crate::map_tree::MapTree;
use sea_base::{Laddr, Nths, SpaceFault};
use sea_tree::TreeFault;
use std::alloc::Global;
use std::process::Abort;

const FAILED: TrialFault = TrialFault::Tree(TreeFault::Space(SpaceFault::DeviceFault));

// Whether an answer is the fault of a get that failed.
fn has_failed<T: Drop>(answer: Result<T, TrialFault>) -> bool {
    match answer {
        Ok(_) => false,
        Err(fault) => fault == FAILED,
    }
}

// Whether each call that reads answers so.
fn reads_fail(alloc: Global, tree: &mut MapTree) -> Result<bool, TrialFault> {
    let key = repeated(alloc, b'a', 1)?;
    Ok(has_failed(tree.get(&key)) && has_failed(tree.range(None, 1)) && has_failed(tree.check()))
}

// Whether each call that changes the tree answers so.
fn changes_fail(alloc: Global, tree: &mut MapTree) -> Result<bool, TrialFault> {
    let key = repeated(alloc, b'a', 1)?;
    let value = filled(alloc, 7, 1)?;
    Ok(
        has_failed(tree.put(&key, &value))
            && has_failed(tree.del(&key))
            && has_failed(tree.drop_all()),
    )
}

#[test]
fn each_call_answers_a_failed_get(rt: HostRuntime) -> Result<(), TrialFault> {
    let alloc = rt.alloc();
    let fails = Nths::from_vec(vec![in alloc; 1, 2, 3, 4, 5, 6]?);
    let mut tree = MapTree::new(alloc, fails);
    assert!(rt; reads_fail(alloc, &mut tree)?);
    assert!(rt; changes_fail(alloc, &mut tree)?);
    assert!(rt; tree.check()?.nodes == 0);
    Ok(())
}

// Reads a tree in each way.
fn read_all(alloc: Global, tree: &mut MapTree) -> Result<(), TrialFault> {
    let key = repeated(alloc, b'a', 1)?;
    tree.get(&key)?;
    tree.range(None, 4)?;
    tree.check()?;
    Ok(())
}

// Makes a call on a tree: a put, a del, a drop of all, or the calls that read it.
fn make_call(alloc: Global, tree: &mut MapTree, call: u8) -> Result<(), TrialFault> {
    match call {
        0 => {
            put_letter(alloc, tree, b'f', 1024)?;
        }
        1 => {
            del_letter(alloc, tree, b'b')?;
        }
        2 => tree.drop_all()?,
        _ => read_all(alloc, tree)?,
    }
    Ok(())
}

// Makes a tree of two leaves, of which the one splits with one more pair, and the other merges
// without its own.
fn fill(alloc: Global, tree: &mut MapTree) -> Result<(), TrialFault> {
    put_letters(alloc, tree, b"abcde")?;
    del_letter(alloc, tree, b'a')?;
    Ok(())
}

// Whether the same blocks stand in two trees.
fn are_same(alloc: Global, one: &mut MapTree, other: &mut MapTree) -> Result<bool, TrialFault> {
    for at in 1..6 {
        if bytes_at(alloc, one, Laddr(at))? != bytes_at(alloc, other, Laddr(at))? {
            return Ok(false);
        }
    }
    Ok(true)
}

// Makes a call on such a tree, whose get with this number fails, and tells whether that get
// was made. The fault is answered, and after that of the call the tree stands as before.
fn fails(rt: &impl Abort, alloc: Global, call: u8, nth: u64) -> Result<bool, TrialFault> {
    let mut gets = Nths::new(alloc);
    gets.push(nth)?;
    let mut tree = MapTree::new(alloc, gets);
    if let Err(fault) = fill(alloc, &mut tree) {
        assert!(rt; fault == FAILED);
        return Ok(true);
    }
    let Err(fault) = make_call(alloc, &mut tree, call) else {
        return Ok(false);
    };
    assert!(rt; fault == FAILED);
    let mut whole = empty_tree(alloc);
    fill(alloc, &mut whole)?;
    assert!(rt; are_same(alloc, &mut tree, &mut whole)?);
    Ok(true)
}

// The first get, counted from 1, that a call no longer makes.
fn first_good(rt: &impl Abort, alloc: Global, call: u8) -> Result<u64, TrialFault> {
    for nth in 1..100 {
        if !fails(rt, alloc, call, nth)? {
            return Ok(nth);
        }
    }
    Ok(100)
}

#[test]
fn a_failed_get_leaves_the_tree_as_it_was(rt: HostRuntime) -> Result<(), TrialFault> {
    let alloc = rt.alloc();
    for call in 0..4 {
        let good = first_good(&rt, alloc, call)?;
        assert!(rt; good > 11 && good < 100);
    }
    Ok(())
}
