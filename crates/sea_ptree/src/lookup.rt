//! A key looked up in a tree.
ghost use Rattle.std.specs.Prelude.{◌≡◌, ◌↔◌, ◌≤◌, ℕ, List, Some, IfOk, IfErr, OnOk, IsTrue};
ghost use Rattle.std.specs.List.{flat_map};
ghost use Rattle.std.specs.Ordering.{nat_cmp};
ghost use Rattle.std.specs.FinMap as map;
ghost use Rattle.std.specs.FinMap.Entries.{find};
ghost use Rattle.sea_base.specs.declared.place.Slot.{Slot};
ghost use Rattle.sea_ptree.specs.Faults.{Reads, IsFaultBelow, IsWhole, IsFault, IsWholeFrom};
ghost use Rattle.sea_ptree.specs.Faults.{IsBlameless};
ghost use Rattle.sea_ptree.specs.Tree.{Item, pairs, Holds, Guides, Leads, LeadsTo, Content, IsTree};
ghost use Rattle.sea_ptree.specs.Tree.{root_link};

use crate::view::View;
use crate::{Blocks, Kind, Link, PFault};
use sea_base::{PRoot, Slot};

/// The slot of a key in the tree of a root, if it has one. It takes no memory.
pub fn get<B: Blocks>(
    blocks: &mut B,
    kind: Kind,
    root: PRoot,
    key: u64,
) -> Result<Option<Slot>, PFault>
    requires { root.height ≤ 8 }
    ensures leads { IsTrue (B.held blocks.old).tells → IfOk result (λ found.
        (slot : Slot) → (found ≡ Some slot) ↔ LeadsTo kind
        (B.held blocks.old).image root key slot) }
    ensures content { IsTrue (B.held blocks.old).tells → IfOk result (λ found.
        (content : Content) (places : List ℕ)
        → IsTree kind (B.held blocks.old).image root content places → found ≡ map.get content key) }
    ensures whole { IsTrue (B.held blocks.old).tells → OnOk result (IsWholeFrom (Guides key) kind
        (B.held blocks.old).image root.height (root_link root)) }
    ensures fault { IfErr result (IsFault (Guides key) kind (B.held blocks.old)
        (B.held blocks.new) root) }
    ensures blameless { IfErr result (IsBlameless kind (B.held blocks.old) root) }
    ensures kept { Reads (B.held blocks.old) (B.held blocks.new) result }
{
    if root.height == 0 {
        return Ok(None);
    }
    slot_below(blocks, kind, Link::root(root), root.height - 1, key)
}

// The slot of a key below a link of a level.
fn slot_below<B: Blocks>(
    blocks: &mut B,
    kind: Kind,
    link: Link,
    level: u32,
    key: u64,
) -> Result<Option<Slot>, PFault>
    requires { level ≤ 7 }
    ensures leads { IsTrue (B.held blocks.old).tells → IfOk result (λ found.
        (slot : Slot) → (found ≡ Some slot) ↔ Leads kind
        (B.held blocks.old).image level link key slot) }
    ensures content { IsTrue (B.held blocks.old).tells → IfOk result (λ found.
        (items : List (Item level))
        → Holds kind (B.held blocks.old).image level link items → found
        ≡ find nat_cmp key (flat_map (pairs level) items)) }
    ensures whole { IsTrue (B.held blocks.old).tells → OnOk result (IsWhole (Guides key) kind
        (B.held blocks.old).image level link) }
    ensures fault { IfErr result (IsFaultBelow (Guides key) kind (B.held blocks.old)
        (B.held blocks.new) level link) }
    ensures kept { Reads (B.held blocks.old) (B.held blocks.new) result }
{
    let view = View::read(blocks, kind, link, level)?;
    let Some((at, slot)) = view.towards(key) else {
        return Ok(None);
    };
    if level > 0 {
        return slot_below(blocks, kind, Link::of(slot), level - 1, key);
    }
    if at != key {
        return Ok(None);
    }
    Ok(Some(slot))
}
