//! A key looked up in a tree, by one block a level and with no list of a node's entries.
ghost use Rattle.std.specs.Prelude.{◌≡◌, ℕ, ◌≤◌, List, None, IsTrue, IfOk, IfSome, IfNone, OnOk, IfErr, ◌↔◌, length};
ghost use Rattle.std.specs.Option.{option_copied, option_or, MatchOption};
ghost use Rattle.sea_base.specs.Space.{IsKnown, OnlyRead, ReadsAtMost};
ghost use Rattle.std.specs.FinMap.Entries.{find};
ghost use Rattle.sea_node.specs.Entries.{Entry, IsRising, key_order};
ghost use Rattle.sea_node.specs.Node.{IsNode};
ghost use Rattle.sea_node.specs.Lookup.{Tells};
ghost use Rattle.sea_tree.specs.Tree.{root_bounds, IsAddress, IsInPlace, IsWithin};
ghost use Rattle.sea_tree.specs.Breaks.{HasNode};
ghost use Rattle.sea_tree.specs.Calls.{IsPathFault, IsWholePath};
ghost use Rattle.sea_tree.specs.Place.{meant, IsPlaceFault, IsRootFault};
ghost use Rattle.sea_tree.specs.Reads.{ReadsPath};
ghost use Rattle.sea_tree.specs.Lookup.{IsSeen, IsFound, HoldsLeaf};
ghost use Rattle.sea_base.specs.Ghosts.{IsReady, IsCall};
ghost use Rattle.sea_tree.specs.Calls.{space_fault};

use crate::TreeFault;
use crate::leaf::Leaf;
use crate::place::{Bounds, LEAST_BYTES, address_of, is_below};
use sea_base::{Block, Data, Key, Laddr, Space};
use sea_node::{Lookup, Node};

// A node that was looked at for a key.
#[derive(Debug, Drop)]
pub(crate) struct Sight {
    // Its address.
    pub at: Laddr,
    // Its block.
    pub block: Block,
    // What it tells of the key.
    pub lookup: Lookup,
}

/// The leaf that a key leads to. There is none in an empty tree.
pub(crate) fn look_up<S: Space>(
    space: &mut S,
    root: Laddr,
    key: &Key,
) -> Result<Option<Leaf>, TreeFault>
    requires { IsReady S.Space space.old }
    ensures leaf { IfOk result
        (λ found. IfSome found (HoldsLeaf (S.seen space.new) root.0 key.now)) }
    ensures none { IfOk result (λ found. IfNone found ((S.seen space.new).view root.0 ≡ None)) }
    ensures known { OnOk result (IsKnown (S.seen space.new) root.0) }
    ensures whole { OnOk result (IsWholePath root.0 key.now (S.seen space.old) (S.seen space.new)) }
    ensures fault { IfErr result
        (IsPathFault root.0 key.now (S.seen space.old) (S.seen space.new)) }
    ensures within { ReadsPath root.0 key.now (S.seen space.old) (S.seen space.new) }
    ensures reads { OnlyRead (S.seen space.old) (S.seen space.new) }
    ensures call { IsCall S.Space space.old space.new (space_fault result) }
{
    prove!(!key.bytes().is_empty());
    let Some(mut sight) = look_at_root(space, root, key)? else {
        return Ok(None);
    };
    let mut upper = None;
    'down: while sight.lookup.level > 0 {
        let level = sight.lookup.level - 1;
        let Sight { lookup, .. } = sight;
        let (at, bounds) = child_of(lookup, upper);
        sight = look_at(space, at, level, &bounds, key)?;
        upper = bounds.upper;
    }
    let Sight { at, block, lookup } = sight;
    Ok(Some(Leaf {
        at,
        block,
        value: value_of(lookup, key),
    }))
}

// The value that a leaf has under a key, by what it tells of the key.
fn value_of(lookup: Lookup, key: &Key) -> Option<Data>
    ensures { (entries : List Entry) → IsRising entries → Tells key.now entries lookup
        → result ≡ find key_order key.now entries }
{
    let Lookup { found, .. } = lookup;
    match found {
        Some((at, value)) if at == *key => Some(value),
        _ => None,
    }
}

/// The address and the bounds of the child that the key leads to, in a node with this upper bound.
pub(crate) fn child_of(lookup: Lookup, upper: Option<Key>) -> (Laddr, Bounds)
    requires { MatchOption lookup.found ⊥ (λ entry. length entry.1 ≡ 8) }
    ensures address { IfSome lookup.found (λ entry. IsAddress entry.1 result.0.0) }
    ensures bounds { IfSome lookup.found
        (λ entry. meant result.1
        ≡ record { least = LEAST_BYTES; lower = entry.0; upper = option_or lookup.next upper }) }
{
    let Lookup { found, next, .. } = lookup;
    let (lower, value) = found.unwrap();
    let bounds = Bounds {
        least: LEAST_BYTES,
        lower,
        upper: next.or(upper),
    };
    (address_of(&value), bounds)
}

/// Looks at the node at an address in its place for a key.
pub(crate) fn look_at<S: Space>(
    space: &mut S,
    at: Laddr,
    level: u32,
    bounds: &Bounds,
    key: &Key,
) -> Result<Sight, TreeFault>
    requires { IsReady S.Space space.old }
    ensures level { IfOk result (λ sight. sight.lookup.level ≡ level) }
    ensures node { IfOk result (λ sight. (entries : List Entry)
        × HasNode (S.seen space.new).view level at.0 (meant bounds.now) entries
        × Tells key.now entries sight.lookup) }
    ensures here { IfOk result (IsSeen (S.seen space.new) at.0) }
    ensures known { OnOk result (IsKnown (S.seen space.new) at.0) }
    ensures fault { IfErr result (IsPlaceFault level at.0 (meant bounds.now) (S.seen space.new)) }
    ensures one { ReadsAtMost at.0 (S.seen space.old) (S.seen space.new) }
    ensures reads { OnlyRead (S.seen space.old) (S.seen space.new) }
    ensures call { IsCall S.Space space.old space.new (space_fault result) }
{
    let Some(block) = space.get(at)? else {
        return Err(TreeFault::Broken { at });
    };
    let Some(lookup) = Node::look_up(&block, key)? else {
        return Err(TreeFault::Broken { at });
    };
    if lookup.level != level || !admits(bounds, &lookup) {
        return Err(TreeFault::Broken { at });
    }
    Ok(Sight { at, block, lookup })
}

// Whether a node of which this is told is in its place.
fn admits(bounds: &Bounds, lookup: &Lookup) -> bool
    ensures { (key : List ℕ) (entries : List Entry) → IsNode lookup.now.level entries
        → Tells key entries lookup.now
        → IsTrue result ↔ IsInPlace lookup.now.level (meant bounds.now) entries }
{
    if lookup.size < bounds.least as usize || !is_below(&lookup.last, bounds.upper.as_ref()) {
        return false;
    }
    if lookup.level == 0 {
        bounds.lower <= lookup.first
    } else {
        bounds.lower == lookup.first
    }
}

/// Looks at the root of a tree for a key. There is none in an empty tree.
pub(crate) fn look_at_root<S: Space>(
    space: &mut S,
    root: Laddr,
    key: &Key,
) -> Result<Option<Sight>, TreeFault>
    requires { IsReady S.Space space.old }
    ensures node { IfOk result (λ found.
        IfSome found (λ sight. (entries : List Entry)
        × HasNode (S.seen space.new).view sight.lookup.level root.0 root_bounds entries
        × Tells key.now entries sight.lookup)) }
    ensures here { IfOk result (λ found. IfSome found (IsSeen (S.seen space.new) root.0)) }
    ensures none { IfOk result (λ found. IfNone found ((S.seen space.new).view root.0 ≡ None)) }
    ensures known { OnOk result (IsKnown (S.seen space.new) root.0) }
    ensures fault { IfErr result (IsRootFault root.0 (S.seen space.new)) }
    ensures one { ReadsAtMost root.0 (S.seen space.old) (S.seen space.new) }
    ensures reads { OnlyRead (S.seen space.old) (S.seen space.new) }
    ensures call { IsCall S.Space space.old space.new (space_fault result) }
{
    let Some(block) = space.get(root)? else {
        return Ok(None);
    };
    let Some(lookup) = Node::look_up(&block, key)? else {
        return Err(TreeFault::Broken { at: root });
    };
    if !is_root(&lookup) {
        return Err(TreeFault::Broken { at: root });
    }
    Ok(Some(Sight {
        at: root,
        block,
        lookup,
    }))
}

// Whether a node of which this is told may be a root: above the leaves its first key is the byte 0.
fn is_root(lookup: &Lookup) -> bool
    ensures { (key : List ℕ) (entries : List Entry) → IsNode lookup.now.level entries
        → Tells key entries lookup.now
        → IsTrue result ↔ IsInPlace lookup.now.level root_bounds entries }
{
    lookup.level == 0 || lookup.first.bytes() == [0].as_slice()
}
