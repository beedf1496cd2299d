//! A node of a tree moved, with those above it.
ghost use Rattle.std.specs.Prelude.{◌≡◌, ◌+◌, ◌-◌, ◌<◌, ◌≤◌, ◌^◌, ◌++◌, ◌∷◌, ℕ, List, take, drop};
ghost use Rattle.std.specs.Prelude.{length, IfOk, OnOk, IfErr, IsTrue};
ghost use Rattle.sea_ptree.specs.Faults.{Reads, IsFaultBelow, IsFault, IsBlameless};
ghost use Rattle.sea_ptree.specs.Fresh.{Renews};
ghost use Rattle.sea_base.specs.declared.place.Paddr.{Paddr};
ghost use Rattle.sea_ptree.specs.Making.{Onward};
ghost use Rattle.sea_ptree.specs.Moving.{Moves, MovesBelow, IsPathOf};
ghost use Rattle.sea_ptree.specs.Node.{Entry};
ghost use Rattle.sea_ptree.specs.Rebuilding.{Rebuilds};
ghost use Rattle.sea_ptree.specs.Tree.{Has, NodeAt, root_link};
ghost use Rattle.sea_ptree.specs.View.{Parts};

use crate::{Blocks, Fresh, Kind, Link, Making, PFault};
use sea_base::{PRoot, Paddr, Slot};
use std::alloc::Global;

/// Writes the node of a level on the path of a key anew, and those above it. The content stays.
///
/// The fresh nodes stand from `place` on, at most 8, children before parents. A key below the
/// tree's least key leads to the first leaf.
pub fn relocate<B: Blocks>(
    alloc: Global,
    blocks: &mut B,
    kind: Kind,
    root: PRoot,
    key: u64,
    level: u32,
    place: Paddr,
) -> Result<Fresh, PFault>
    requires height { root.height ≤ 8 }
    requires level { level < root.height }
    requires room { place.0 + 8 ≤ 2 ^ 24 }
    ensures renewed { IsTrue (B.held blocks.old).tells → IfOk result (λ fresh. Renews kind
        (B.held blocks.old).image root place.0 fresh (λ content. content)) }
    ensures moves { IsTrue (B.held blocks.old).tells → IfOk result (Moves kind
        (B.held blocks.old).image root key level place.0) }
    ensures size { IfOk result (IsPathOf root level) }
    ensures fault { IfErr result (IsFault Has kind (B.held blocks.old) (B.held blocks.new) root) }
    ensures blameless { IfErr result (IsBlameless kind (B.held blocks.old) root) }
    ensures kept { Reads (B.held blocks.old) (B.held blocks.new) result }
{
    let mut making = Making::new(alloc, kind, place);
    let top = root.height - 1;
    let link = Link::root(root);
    let entries = relocate_below(&mut making, blocks, link, top, level, key)?;
    let (_, slot) = making.write(top, &entries)?;
    Ok(making.done(PRoot {
        at: slot.at,
        height: root.height,
        sum: slot.sum,
    }))
}

// The entries of the node of a level that a link leads to, the nodes below it on the way of a key
// written anew down to a level.
fn relocate_below<B: Blocks>(
    making: &mut Making,
    blocks: &mut B,
    link: Link,
    level: u32,
    bottom: u32,
    key: u64,
) -> Result<Vec<(u64, Slot)>, PFault>
    requires level { level ≤ 7 }
    requires room { making.old.place + length making.old.nodes.items + level ≤ 2 ^ 24 }
    ensures rebuilt { IsTrue (B.held blocks.old).tells → IfOk result (λ es.
        Rebuilds making.old.kind (B.held blocks.old).image level link making.old making.new
        (λ ps. ps) es.items) }
    ensures same { IfOk result (λ es. IsTrue (B.held blocks.old).tells → (fs : List Entry)
        → NodeAt making.old.kind (B.held blocks.old).image level link fs
        → length es.items ≡ length fs) }
    ensures some { IfOk result (λ es. (1 ≤ length es.items) × (length es.items ≤ 145)) }
    ensures onward { OnOk result (Onward making.old making.new) }
    ensures moves { IsTrue (B.held blocks.old).tells → IfOk result (λ es.
        MovesBelow making.old.kind (B.held blocks.old).image key bottom level link making.old
        making.new es.items) }
    ensures count { OnOk result (length making.new.nodes.items
        ≡ length making.old.nodes.items + (level - bottom)) }
    ensures fault { IfErr result (IsFaultBelow Has making.old.kind (B.held blocks.old)
        (B.held blocks.new) level link) }
    ensures kept { Reads (B.held blocks.old) (B.held blocks.new) result }
{
    let mut entries = making.take(blocks, link, level)?;
    if level > bottom {
        let index = index_towards(&entries, key);
        let child = Link::of(entries[index].1);
        let below = relocate_below(making, blocks, child, level - 1, bottom, key)?;
        entries[index] = making.write(level - 1, &below)?;
    }
    Ok(entries)
}

/// The index of the last entry whose key is not above a key, or 0 where all are above.
pub(crate) fn index_towards(entries: &[(u64, Slot)], key: u64) -> usize
    requires { 1 ≤ length entries.now }
    ensures within { result < length entries.now }
    ensures parts { (count : ℕ) × (result ≡ count - 1) × Parts key entries.now count }
{
    count_upto(entries, key).saturating_sub(1)
}

// How many entries stand before the first one whose key is above a key.
fn count_upto(entries: &[(u64, Slot)], key: u64) -> usize
    ensures { Parts key entries.now result }
{
    for (index, entry) in entries.iter().enumerate() {
        if entry.0 > key {
            return index;
        }
    }
    entries.len()
}
