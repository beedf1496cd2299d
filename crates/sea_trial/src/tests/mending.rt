use super::{del_letter, empty_tree, filled, has_root, put_letter, put_letters, repeated};
use crate::fault::TrialFault;
use crate::map_tree::MapTree;
use std::alloc::Global;

#[test]
fn a_shorter_value_merges_a_leaf_with_its_neighbour(rt: HostRuntime) -> Result<(), TrialFault> {
    let alloc = rt.alloc();
    let mut tree = empty_tree(alloc);
    put_letters(alloc, &mut tree, b"abcd")?;
    assert!(rt; put_letter(alloc, &mut tree, b'a', 0)? == 1024);
    assert!(rt; tree.check()?.nodes == 3);
    assert!(rt; put_letter(alloc, &mut tree, b'b', 0)? == 1024);
    assert!(rt; tree.check()?.nodes == 1);
    Ok(())
}

// Puts values of 900 bytes under the keys of 64 times these letters.
fn put_long(alloc: Global, tree: &mut MapTree, letters: &[u8]) -> Result<(), TrialFault> {
    let value = filled(alloc, 7, 900)?;
    for letter in letters {
        let key = repeated(alloc, *letter, 64)?;
        tree.put(&key, &value)?;
    }
    Ok(())
}

// A tree of a leaf of two pairs, and of one that three long keys behind `c` fill.
fn full_right_leaf(alloc: Global) -> Result<MapTree, TrialFault> {
    let mut tree = empty_tree(alloc);
    put_letters(alloc, &mut tree, b"abc")?;
    put_long(alloc, &mut tree, b"def")?;
    Ok(tree)
}

// The left leaf gets too thin, and the pairs of both are redistributed before `e`.
#[test]
fn a_deletion_moves_a_longer_separator_up(rt: HostRuntime) -> Result<(), TrialFault> {
    let alloc = rt.alloc();
    let mut tree = full_right_leaf(alloc)?;
    assert!(rt; has_root(alloc, &mut tree, b"c", 1)?);
    assert!(rt; put_letter(alloc, &mut tree, b'b', 200)? == 1024);
    assert!(rt; del_letter(alloc, &mut tree, b'a')? == 1024);
    assert!(rt; has_root(alloc, &mut tree, &[b'e'; 64], 64)?);
    assert!(rt; tree.check()?.pairs == 5);
    Ok(())
}
