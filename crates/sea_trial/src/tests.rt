ghost use Rattle.std.specs.Prelude.{◌≡◌, IfOk, length};

mod counting;
mod dice;
mod faults;
mod leaves;
mod mending;
mod nodes;
mod plain;
mod random;
mod rows;
mod spaces;
mod tall;
mod twin;
mod values;

use crate::fault::TrialFault;
use crate::map_tree::{MapTree, ROOT};
use sea_base::{BLOCK_BYTES, Block, Data, Key, Laddr, Nths};
use std::alloc::Global;

// An empty tree, of whose gets none fails.
fn empty_tree(alloc: Global) -> MapTree {
    MapTree::new(alloc, Nths::new(alloc))
}

// A value of one byte, again and again.
fn filled(alloc: Global, byte: u8, len: usize) -> Result<Data, TrialFault> {
    Ok(Data::from_vec(vec![in alloc; byte; len]?)?)
}

// The key of a letter, again and again.
fn repeated(alloc: Global, letter: u8, len: usize) -> Result<Key, TrialFault> {
    let bytes = filled(alloc, letter, len)?;
    Key::from_data(bytes).ok_or(TrialFault::BadKey)
}

// The length of a value, or 0 where there is none.
fn len_of(value: Option<Data>) -> usize {
    match value {
        Some(value) => value.len(),
        None => 0,
    }
}

// Puts a value of this length under the key of one letter, and answers the length of the old one.
fn put_letter(
    alloc: Global,
    tree: &mut MapTree,
    letter: u8,
    len: usize,
) -> Result<usize, TrialFault> {
    let key = repeated(alloc, letter, 1)?;
    let value = filled(alloc, letter, len)?;
    Ok(len_of(tree.put(&key, &value)?))
}

// Takes the key of one letter out, and answers the length of the value.
fn del_letter(alloc: Global, tree: &mut MapTree, letter: u8) -> Result<usize, TrialFault> {
    let key = repeated(alloc, letter, 1)?;
    Ok(len_of(tree.del(&key)?))
}

// Puts values of 1,024 bytes under the keys of these letters.
fn put_letters(alloc: Global, tree: &mut MapTree, letters: &[u8]) -> Result<(), TrialFault> {
    for letter in letters {
        put_letter(alloc, tree, *letter, 1024)?;
    }
    Ok(())
}

// The bytes at an address, or none where nothing stands.
fn bytes_at(alloc: Global, tree: &mut MapTree, at: Laddr) -> Result<Vec<u8>, TrialFault> {
    match tree.block_at(at)? {
        Some(block) => Ok(block.bytes().to_vec(alloc)?),
        None => Ok(Vec::new(alloc)),
    }
}

// The bytes of a node of a level, with these bytes of entries.
fn block_of(alloc: Global, level: u8, entries: &[u8]) -> Result<Vec<u8>, TrialFault>
    ensures { IfOk result (λ bytes. length bytes.items ≡ 4096) }
{
    let mut bytes = Vec::new(alloc);
    bytes.extend_from_slice(b"SNOD")?;
    bytes.push(level)?;
    bytes.resize(32, 0)?;
    bytes.extend_from_slice(entries)?;
    bytes.resize(BLOCK_BYTES, 0)?;
    Ok(bytes)
}

// The same, as a block.
fn node_block(alloc: Global, level: u8, entries: &[u8]) -> Result<Block, TrialFault> {
    Ok(Block::from_vec(block_of(alloc, level, entries)?)?)
}

// The entries of a root over the nodes at 2 and 3, which this separator of so many bytes leads to.
fn root_entries(alloc: Global, separator: &[u8], len: u8) -> Result<Vec<u8>, TrialFault> {
    let mut entries = Vec::new(alloc);
    entries.extend_from_slice(&[1, 0, 8, 0, 0, 0, 0, 0, 0, 0, 0, 2])?;
    entries.extend_from_slice(&[len, 0, 8])?;
    entries.extend_from_slice(separator)?;
    entries.extend_from_slice(&[0, 0, 0, 0, 0, 0, 0, 3])?;
    Ok(entries)
}

// Whether such a root stands.
fn has_root(
    alloc: Global,
    tree: &mut MapTree,
    separator: &[u8],
    len: u8,
) -> Result<bool, TrialFault> {
    let entries = root_entries(alloc, separator, len)?;
    let root = block_of(alloc, 1, &entries)?;
    Ok(bytes_at(alloc, tree, ROOT)? == root)
}
