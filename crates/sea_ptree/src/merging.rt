//! A run of keys merged into a tree.
ghost use Rattle.std.specs.Prelude.{◌≡◌, ◌+◌, ◌*◌, ◌≤◌, ◌^◌, length, IfOk, OnOk, IfErr, IsTrue};
ghost use Rattle.sea_ptree.specs.Faults.{Reads, IsFaultBelow, IsFault, IsBlameless};
ghost use Rattle.sea_ptree.specs.Laying.{RunFits};
ghost use Rattle.sea_ptree.specs.Making.{Onward};
ghost use Rattle.sea_ptree.specs.Merging.{Merges, MergesBelow, Lays, LaysBelow, IsFewOf, first_key};
ghost use Rattle.sea_ptree.specs.Tree.{Has};

use crate::laying::lay_over;
use crate::relocating::index_towards;
use crate::{Blocks, Fresh, Kind, Link, Making, PFault, Run};
use sea_base::{PRoot, Paddr, Slot};
use std::alloc::Global;

/// Lays a run over the tree of a root: its keys get their slots, and those without one go.
///
/// The keys lead to one leaf; a key below the tree's least key leads to the first one. The fresh
/// nodes stand from `place` on, at most 17, children before parents. A run that changes nothing
/// still writes its leaf and the path to it anew. A tree of 8 levels whose root is full can't grow,
/// which is answered as want of memory; such a tree has more nodes than a device has blocks.
pub fn merge<B: Blocks>(
    alloc: Global,
    blocks: &mut B,
    kind: Kind,
    root: PRoot,
    run: &Run,
    place: Paddr,
) -> Result<Fresh, PFault>
    requires height { root.height ≤ 8 }
    requires room { place.0 + 17 ≤ 2 ^ 24 }
    ensures renewed { IsTrue (B.held blocks.old).tells → IfOk result (λ fresh. Merges kind
        (B.held blocks.old).image root place.0 run.now fresh) }
    ensures lays { IsTrue (B.held blocks.old).tells → IfOk result (Lays kind
        (B.held blocks.old).image root place.0 run.now) }
    ensures size { IfOk result IsFewOf }
    ensures fault { IfErr result (IsFault Has kind (B.held blocks.old) (B.held blocks.new) root) }
    ensures blameless { IfErr result (IsBlameless kind (B.held blocks.old) root) }
    ensures kept { Reads (B.held blocks.old) (B.held blocks.new) result }
{
    let mut making = Making::new(alloc, kind, place);
    if root.height == 0 {
        let entries = lay_over(Vec::new(alloc), run.items())?;
        let root = making.settle_root(0, &entries)?;
        return Ok(making.done(root));
    }
    let top = root.height - 1;
    let link = Link::root(root);
    let entries = merge_below(&mut making, blocks, link, top, run)?;
    let root = making.settle_root(top, &entries)?;
    Ok(making.done(root))
}

// The entries of the node of a level that a link leads to, with a run laid over what stands below.
fn merge_below<B: Blocks>(
    making: &mut Making,
    blocks: &mut B,
    link: Link,
    level: u32,
    run: &Run,
) -> Result<Vec<(u64, Slot)>, PFault>
    requires level { level ≤ 7 }
    requires room { making.old.place + length making.old.nodes.items + 2 * level ≤ 2 ^ 24 }
    ensures rebuilt { IsTrue (B.held blocks.old).tells → IfOk result (λ es.
        MergesBelow making.old.kind (B.held blocks.old).image level link run.now making.old
        making.new es.items) }
    ensures lays { IsTrue (B.held blocks.old).tells → IfOk result (λ es. LaysBelow making.old.kind
        (B.held blocks.old).image run.now level link making.old making.new es.items) }
    ensures fits { OnOk result (RunFits run.now) }
    ensures few { IfOk result (λ es. length es.items ≤ 209) }
    ensures onward { OnOk result (Onward making.old making.new) }
    ensures nodes { OnOk result (length making.new.nodes.items
        ≤ length making.old.nodes.items + 2 * level) }
    ensures fault { IfErr result (IsFaultBelow Has making.old.kind (B.held blocks.old)
        (B.held blocks.new) level link) }
    ensures kept { Reads (B.held blocks.old) (B.held blocks.new) result }
{
    let entries = making.take(blocks, link, level)?;
    if level == 0 {
        return Ok(lay_over(entries, run.items())?);
    }
    let index = index_towards(&entries, key_of(run));
    let child = Link::of(entries[index].1);
    let below = merge_below(making, blocks, child, level - 1, run)?;
    making.settle(blocks, level - 1, &entries, index, below)
}

// The first key of a run, or 0 where it has none.
fn key_of(run: &Run) -> u64
    ensures { result ≡ first_key run.now }
{
    match run.items().first() {
        Some(update) => update.0,
        None => 0,
    }
}
