//! The pairs of a tree, in order.
ghost use Rattle.std.specs.Prelude.{◌≡◌, ℕ, ◌≤◌, List, [], take, length, IfOk, OnOk, IfErr, IsTrue};
ghost use Rattle.std.specs.List.{flat_map};
ghost use Rattle.sea_ptree.specs.Faults.{Reads, IsFaultBelow, IsFault, IsBlameless};
ghost use Rattle.sea_ptree.specs.Run.{TakesFrom, puts, pairs_from};
ghost use Rattle.sea_ptree.specs.Tree.{Item, pairs, Has, Holds, Content, IsTree, root_link};
ghost use Rattle.sea_ptree.specs.Walking.{Walks, WalksBelow};

use crate::reading::entry_at;
use crate::view::View;
use crate::{Blocks, Kind, Link, PFault, Run};
use sea_base::PRoot;
use std::alloc::Global;

/// The first `limit` pairs of a tree with keys from `from` on, or all where there are fewer.
pub fn walk<B: Blocks>(
    alloc: Global,
    blocks: &mut B,
    kind: Kind,
    root: PRoot,
    from: u64,
    limit: u32,
) -> Result<Run, PFault>
    requires height { root.height ≤ 8 }
    requires limit { (1 ≤ limit) × (limit ≤ 64) }
    ensures pairs { IsTrue (B.held blocks.old).tells → IfOk result (λ run.
        (content : Content) (places : List ℕ)
        → IsTree kind (B.held blocks.old).image root content places → run
        ≡ puts (take limit (pairs_from from content))) }
    ensures walks { IsTrue (B.held blocks.old).tells → IfOk result (Walks kind
        (B.held blocks.old).image from limit root.height (root_link root) []) }
    ensures fault { IfErr result (IsFault Has kind (B.held blocks.old) (B.held blocks.new) root) }
    ensures blameless { IfErr result (IsBlameless kind (B.held blocks.old) root) }
    ensures kept { Reads (B.held blocks.old) (B.held blocks.new) result }
{
    let mut run = Run::new(alloc);
    if root.height > 0 {
        let limit = limit as usize;
        walk_below(
            blocks,
            kind,
            Link::root(root),
            root.height - 1,
            from,
            limit,
            &mut run,
        )?;
    }
    Ok(run)
}

// Takes the pairs below a link of a level, as far as they are wanted.
fn walk_below<B: Blocks>(
    blocks: &mut B,
    kind: Kind,
    link: Link,
    level: u32,
    from: u64,
    limit: usize,
    run: &mut Run,
) -> Result<(), PFault>
    requires level { level ≤ 7 }
    requires limit { limit ≤ 64 }
    requires few { length run.old ≤ limit }
    ensures few { length run.new ≤ limit }
    ensures taken { IsTrue (B.held blocks.old).tells → OnOk result ((items : List (Item level))
        → Holds kind (B.held blocks.old).image level link items
        → TakesFrom from limit (flat_map (pairs level) items) run.old run.new) }
    ensures walks { IsTrue (B.held blocks.old).tells → OnOk result (WalksBelow kind
        (B.held blocks.old).image from limit level link run.old run.new) }
    ensures fault { IfErr result (IsFaultBelow Has kind (B.held blocks.old)
        (B.held blocks.new) level link) }
    ensures kept { Reads (B.held blocks.old) (B.held blocks.new) result }
{
    let view = View::read(blocks, kind, link, level)?;
    let start = view.count_upto(from).saturating_sub(1);
    for index in start..view.count {
        if run.items().len() >= limit {
            return Ok(());
        }
        let (key, slot) = entry_at(&view.block, index);
        if level > 0 {
            walk_below(blocks, kind, Link::of(slot), level - 1, from, limit, run)?;
        } else if key >= from && run.is_below(key) {
            run.push((key, Some(slot)))?;
        }
    }
    Ok(())
}
