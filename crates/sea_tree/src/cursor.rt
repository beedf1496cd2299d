//! A cursor, which goes through a tree from leaf to leaf.
ghost use Rattle.std.specs.Prelude.{◌≡◌, ◌∷◌, ◌++◌, [], List, ℕ, None, MatchOption, IfOk, IfSome, IfNone, IfErr, OnOk, length, reverse};
ghost use Rattle.std.specs.Option.{option_copied, option_or};
ghost use Rattle.sea_base.specs.Space.{IsKnown, OnlyRead};
ghost use Rattle.sea_base.specs.Ghosts.{IsReady, IsCall};
ghost use Rattle.sea_tree.specs.Calls.{IsPathFault, space_fault};
ghost use Rattle.sea_tree.specs.Lookup.{IsFound};
ghost use Rattle.sea_tree.specs.Path.{LeafPath, IsLeafPath};
ghost use Rattle.sea_tree.specs.Place.{meant};
ghost use Rattle.sea_tree.specs.Range.{AreTurns, IsAtLeaf, IsAtNext, StandsAt};
ghost use Rattle.sea_tree.specs.Reads.{ReadsPath, ReadsNothing};
ghost use Rattle.sea_tree.specs.Tree.{IsAddress};
ghost use Rattle.sea_tree.specs.declared.place.TheConstants.{LEAST_BYTES};

use crate::TreeFault;
use crate::lookup::{Sight, child_of, look_at, look_at_root};
use crate::place::Bounds;
use sea_base::{Block, Duplicate, Key, Laddr, NoMemory, Space};
use sea_node::Node;
use std::alloc::Global;

/// A node above the leaves that has children behind the one that a path goes through.
#[derive(Debug, Drop)]
pub(crate) struct Turn {
    /// Its address.
    pub at: Laddr,
    /// Its block.
    pub block: Block,
    /// Its own upper bound.
    pub upper: Option<Key>,
}

/// A leaf, with the nodes above it that lead to the leaves behind it.
#[derive(Debug, Drop)]
pub(crate) struct Cursor {
    /// The root of the tree.
    pub root: Laddr,
    /// The nodes that lead further, the lowest last.
    pub turns: Vec<Turn>,
    /// The leaf.
    pub leaf: Node,
    /// The leaf's upper bound, from which on the next leaf has its keys.
    pub upper: Option<Key>,
}

impl Cursor {
    /// A cursor at the leaf that a key leads to. There is none in an empty tree.
    pub fn seek<S: Space>(
        alloc: Global,
        space: &mut S,
        root: Laddr,
        key: &Key,
    ) -> Result<Option<Cursor>, TreeFault>
        requires { IsReady S.Space space.old }
        ensures leaf { IfOk result
            (λ found. IfSome found (IsAtLeaf (S.seen space.new) root.0 key.now)) }
        ensures none { IfOk result (λ found. IfNone found ((S.seen space.new).view root.0 ≡ None)) }
        ensures known { OnOk result (IsKnown (S.seen space.new) root.0) }
        ensures fault { IfErr result
            (IsPathFault root.0 key.now (S.seen space.old) (S.seen space.new)) }
        ensures within { ReadsPath root.0 key.now (S.seen space.old) (S.seen space.new) }
        ensures reads { OnlyRead (S.seen space.old) (S.seen space.new) }
        ensures call { IsCall S.Space space.old space.new (space_fault result) }
    {
        prove!(!key.bytes().is_empty());
        let Some(sight) = look_at_root(space, root, key)? else {
            return Ok(None);
        };
        let cursor = go_down(alloc, space, root, Vec::new(alloc), sight, None, key)?;
        Ok(Some(cursor))
    }

    /// The cursor at the next leaf. There is none behind the last.
    pub fn next<S: Space>(self, alloc: Global, space: &mut S) -> Result<Option<Cursor>, TreeFault>
        requires ready { IsReady S.Space space.old }
        requires path { (key : List ℕ) × (path : LeafPath)
            × IsLeafPath (S.seen space.old) self.root.0 key path
            × StandsAt (S.seen space.old) self.root.0 path self }
        ensures next { IfOk result (λ found. IfSome found (λ next. (key : List ℕ) (path : LeafPath)
            → IsLeafPath (S.seen space.old) self.root.0 key path
            → StandsAt (S.seen space.old) self.root.0 path self
            → IsAtNext (S.seen space.new) self.root.0 path next)) }
        ensures none { IfOk result (λ found. IfNone found (self.upper ≡ None)) }
        ensures fault { IfErr result (λ fault. MatchOption self.upper ⊥
            (λ upper. IsPathFault self.root.0 upper (S.seen space.old) (S.seen space.new) fault)) }
        ensures within { MatchOption self.upper
            (ReadsNothing (S.seen space.old) (S.seen space.new))
            (λ upper. ReadsPath self.root.0 upper (S.seen space.old) (S.seen space.new)) }
        ensures reads { OnlyRead (S.seen space.old) (S.seen space.new) }
        ensures call { IsCall S.Space space.old space.new (space_fault result) }
    {
        let Cursor {
            root,
            mut turns,
            upper,
            ..
        } = self;
        let Some(turn) = turns.pop() else {
            return Ok(None);
        };
        let key = upper.unwrap();
        let Turn { at, block, upper } = turn;
        let Some(lookup) = Node::look_up(&block, &key)? else {
            unreachable!();
        };
        let sight = Sight { at, block, lookup };
        let next = go_down(alloc, space, root, turns, sight, upper, &key)?;
        Ok(Some(next))
    }
}

// Goes down from a node to the leaf that a key leads to.
fn go_down<S: Space>(
    alloc: Global,
    space: &mut S,
    root: Laddr,
    mut turns: Vec<Turn>,
    mut sight: Sight,
    mut upper: Option<Key>,
    key: &Key,
) -> Result<Cursor, TreeFault>
    requires ready { IsReady S.Space space.old }
    requires found { IsFound (S.seen space.old) root.0 key.now upper sight }
    requires turns { AreTurns (S.seen space.old) root.0 (reverse turns.items) upper }
    ensures leaf { IfOk result (IsAtLeaf (S.seen space.new) root.0 key.now) }
    ensures fault { IfErr result
        (IsPathFault root.0 key.now (S.seen space.old) (S.seen space.new)) }
    ensures within { ReadsPath root.0 key.now (S.seen space.old) (S.seen space.new) }
    ensures reads { OnlyRead (S.seen space.old) (S.seen space.new) }
    ensures call { IsCall S.Space space.old space.new (space_fault result) }
{
    'down: while sight.lookup.level > 0 {
        let level = sight.lookup.level - 1;
        let (at, bounds) = turn_off(&mut turns, sight, upper)?;
        sight = look_at(space, at, level, &bounds, key)?;
        upper = bounds.upper;
    }
    let Some(leaf) = Node::parse(alloc, &sight.block)? else {
        unreachable!();
    };
    Ok(Cursor {
        root,
        turns,
        leaf,
        upper,
    })
}

// The address and the bounds of the child that the key leads to which a node with this upper bound
// was looked at for. The node is held where it has children behind that one.
fn turn_off(
    turns: &mut Vec<Turn>,
    sight: Sight,
    upper: Option<Key>,
) -> Result<(Laddr, Bounds), NoMemory>
    requires { MatchOption sight.lookup.found ⊥ (λ entry. length entry.1 ≡ 8) }
    ensures address { IfOk result (λ child.
        IfSome sight.lookup.found (λ entry. IsAddress entry.1 child.0.0)) }
    ensures bounds { IfOk result (λ child. IfSome sight.lookup.found (λ entry. meant child.1
        ≡ record {
          least = LEAST_BYTES;
          lower = entry.0;
          upper = option_or sight.lookup.next upper;
        })) }
    ensures turns { OnOk result (MatchOption sight.lookup.next (turns.new.items ≡ turns.old.items)
        (λ next. turns.new.items ≡ turns.old.items
        ++ record { at = sight.at; block = sight.block; upper = upper } ∷ [])) }
{
    let Sight { at, block, lookup } = sight;
    if lookup.next.is_some() {
        let upper = copy_of(upper.as_ref())?;
        turns.push(Turn { at, block, upper })?;
    }
    Ok(child_of(lookup, upper))
}

// A copy of a bound, if there is one.
fn copy_of(bound: Option<&Key>) -> Result<Option<Key>, NoMemory>
    ensures { IfOk result (λ copy. copy ≡ option_copied bound.entry) }
{
    match bound {
        Some(key) => Ok(Some(key.copy()?)),
        None => Ok(None),
    }
}
