//! Where the entries of a node are cut in two.
ghost use Rattle.std.specs.Prelude.{◌≡◌, ◌+◌, ◌*◌, ◌<◌, ◌≤◌, ◌^◌, length, IfOk};
ghost use Rattle.sea_node.specs.Entries.{size};
ghost use Rattle.sea_tree.specs.Tree.{Bounds as Asked};
ghost use Rattle.sea_tree.specs.Cut.{IsCut};
ghost use Rattle.sea_tree.specs.Mending.{IsNearPlace};
ghost use Rattle.sea_tree.specs.Rebalanced.{AreHalves};

use crate::edit::push_copies;
use sea_base::{BLOCK_BYTES, Data, Key, NoMemory, Pairs};
use sea_node::{Node, ROOM_BYTES};
use std::alloc::Global;

/// How many bytes an entry takes: the lengths of its key and its value, and these.
pub(crate) fn entry_size(entry: &(Key, Data)) -> usize
    requires { 3 + length entry.now.0 + length entry.now.1 < 2 ^ 63 }
    ensures { result ≡ 3 + length entry.now.0 + length entry.now.1 }
{
    3 + entry.0.bytes().len() + entry.1.len()
}

/// How many bytes entries take.
pub(crate) fn size_of(entries: &[(Key, Data)]) -> usize
    requires { size entries.now < 2 ^ 63 }
    ensures { result ≡ size entries.now }
{
    let mut total = 0;
    for entry in entries {
        total += entry_size(entry);
    }
    total
}

/// Behind how many entries they are cut: where the two parts differ least, the first such place.
pub(crate) fn cut_of(entries: &[(Key, Data)]) -> usize
    requires some { 2 ≤ length entries.now }
    requires fits { size entries.now ≤ 2 * BLOCK_BYTES }
    ensures { IsCut entries.now result }
{
    let total = size_of(entries);
    let mut left = 0;
    let mut least = usize::MAX;
    let mut cut = 0;
    for i in 1..entries.len() {
        left += entry_size(&entries[i - 1]);
        let difference = left.abs_diff(total - left);
        if difference < least {
            least = difference;
            cut = i;
        }
    }
    cut
}

/// The two nodes that one with too many entries is cut into.
pub(crate) fn halves(alloc: Global, node: &Node) -> Result<(Node, Node), NoMemory>
    requires near { (bounds : Asked) × IsNearPlace node.now.level bounds node.now.entries }
    requires large { ROOM_BYTES < size node.now.entries }
    ensures { IfOk result (λ parts. AreHalves node.now.level node.now.entries parts.0 parts.1) }
{
    let entries = node.entries.items();
    let cut = cut_of(entries);
    let front = part(alloc, node.level, &entries[..cut])?;
    let back = part(alloc, node.level, &entries[cut..])?;
    Ok((front, back))
}

// A node of copies of entries.
fn part(alloc: Global, level: u32, entries: &[(Key, Data)]) -> Result<Node, NoMemory>
    ensures level { IfOk result (λ node. node.level ≡ level) }
    ensures entries { IfOk result (λ node. node.entries ≡ entries.now) }
{
    let mut copies = Pairs::new(alloc);
    push_copies(&mut copies, entries)?;
    Ok(Node {
        level,
        entries: copies,
    })
}
