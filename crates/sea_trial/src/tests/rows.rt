use super::{block_of, bytes_at, empty_tree, filled, has_root};
use crate::fault::TrialFault;
use crate::map_tree::{MapTree, ROOT};
use sea_base::{Key, Laddr};
use sea_tree::Checked;
use std::alloc::Global;

// The key of `k` and a digit.
fn key_of(alloc: Global, digit: u8) -> Result<Key, TrialFault> {
    Ok(Key::new(alloc, &[b'k', digit])?)
}

// Puts 1,024 bytes of a digit under its key.
fn put_digit(alloc: Global, tree: &mut MapTree, digit: u8) -> Result<(), TrialFault> {
    let key = key_of(alloc, digit)?;
    let value = filled(alloc, digit, 1024)?;
    tree.put(&key, &value)?;
    Ok(())
}

// Takes a digit's key out, and tells whether its value was there.
fn takes_digit(alloc: Global, tree: &mut MapTree, digit: u8) -> Result<bool, TrialFault> {
    let key = key_of(alloc, digit)?;
    let value = filled(alloc, digit, 1024)?;
    Ok(tree.del(&key)? == Some(value))
}

// A tree of `k1` to `k4`.
fn four_pairs(alloc: Global) -> Result<MapTree, TrialFault> {
    let mut tree = empty_tree(alloc);
    for digit in b"1234" {
        put_digit(alloc, &mut tree, *digit)?;
    }
    Ok(tree)
}

// The entries of a leaf of two of these pairs.
fn leaf_entries(alloc: Global, digits: &[u8; 2]) -> Result<Vec<u8>, TrialFault> {
    let mut entries = Vec::new(alloc);
    for digit in digits {
        entries.extend_from_slice(&[2, 4, 0, b'k', *digit])?;
        entries.extend_from_slice(&[*digit; 1024])?;
    }
    Ok(entries)
}

// Whether such a leaf stands at an address.
fn has_leaf(
    alloc: Global,
    tree: &mut MapTree,
    at: Laddr,
    digits: &[u8; 2],
) -> Result<bool, TrialFault> {
    let entries = leaf_entries(alloc, digits)?;
    let leaf = block_of(alloc, 0, &entries)?;
    Ok(bytes_at(alloc, tree, at)? == leaf)
}

// How many of these addresses nothing stands at.
fn free_of(tree: &mut MapTree, addresses: &[Laddr]) -> Result<usize, TrialFault> {
    let mut free = 0usize;
    for at in addresses {
        if tree.block_at(*at)?.is_none() {
            free = free.saturating_add(1);
        }
    }
    Ok(free)
}

#[test]
fn a_root_splits_over_two_leaves(rt: HostRuntime) -> Result<(), TrialFault> {
    let alloc = rt.alloc();
    let mut tree = four_pairs(alloc)?;
    assert!(rt; has_root(alloc, &mut tree, b"k3", 2)?);
    assert!(rt; has_leaf(alloc, &mut tree, Laddr(2), b"12")?);
    assert!(rt; has_leaf(alloc, &mut tree, Laddr(3), b"34")?);
    Ok(())
}

#[test]
fn a_tree_shrinks_to_its_root(rt: HostRuntime) -> Result<(), TrialFault> {
    let alloc = rt.alloc();
    let mut tree = four_pairs(alloc)?;
    assert!(rt; takes_digit(alloc, &mut tree, b'1')?);
    assert!(rt; takes_digit(alloc, &mut tree, b'2')?);
    assert!(rt; has_leaf(alloc, &mut tree, ROOT, b"34")?);
    assert!(rt; free_of(&mut tree, &[Laddr(2), Laddr(3)])? == 2);
    Ok(())
}

#[test]
fn a_tree_shrinks_to_nothing(rt: HostRuntime) -> Result<(), TrialFault> {
    let alloc = rt.alloc();
    let mut tree = four_pairs(alloc)?;
    for digit in b"1234" {
        assert!(rt; takes_digit(alloc, &mut tree, *digit)?);
    }
    assert!(rt; free_of(&mut tree, &[ROOT, Laddr(2), Laddr(3)])? == 3);
    assert!(rt; tree.check()? == Checked { pairs: 0, nodes: 0 });
    Ok(())
}
