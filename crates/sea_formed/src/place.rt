//! One node in its place.
ghost use Rattle.std.specs.Prelude.{◌≡◌, ℕ, ◌+◌, ◌^◌, ◌<◌, ◌≤◌, List, IsTrue, IfOk, IfErr, ◌↔◌, All, length};
ghost use Rattle.std.specs.Option.{option_copied};
ghost use Rattle.sea_node.specs.Entries.{Entry, IsNotAbove, size};
ghost use Rattle.sea_node.specs.Node.{IsNode};
ghost use Rattle.sea_tree.specs.Tree.{root_bounds, child_bounds, IsInPlace, IsWithin, IsAddress};
ghost use Rattle.sea_tree.specs.Breaks.{HasNode};
ghost use Rattle.sea_tree.specs.Place.{Splits};
ghost use Rattle.sea_formed.specs.Blocks.{store_of};
ghost use Rattle.sea_formed.specs.Place.{meant};
ghost use Rattle.sea_formed.specs.Wrong.{Refutes};

use crate::blocks::Blocks;
use crate::wrong::Wrong;
use sea_base::{Data, Duplicate, Key, NoMemory, u64_at};
use sea_node::Node;
use std::alloc::Global;

/// What a node's parent asks of it beside its level.
#[derive(Debug, Drop)]
pub(crate) struct Bounds {
    /// The least bytes of entries that it has.
    pub least: usize,
    /// The separator that leads to it.
    pub lower: Key,
    /// The next separator.
    pub upper: Option<Key>,
}

impl Bounds {
    /// What is asked of a root.
    pub fn root(alloc: Global) -> Result<Bounds, NoMemory>
        ensures { IfOk result (λ bounds. meant bounds ≡ root_bounds) }
    {
        let lower = Key::new(alloc, &[0]).map_err(|_| NoMemory)?;
        Ok(Bounds {
            least: 0,
            lower,
            upper: None,
        })
    }

    /// What is asked of the child of the entry at an index.
    pub fn of_child(node: &Node, index: usize, upper: Option<&Key>) -> Result<Bounds, NoMemory>
        requires { index < length node.now.entries }
        ensures { IfOk result (λ bounds. (before after : List Entry) (entry : Entry)
            → Splits node.now.entries index before entry after
            → meant bounds ≡ child_bounds entry after (option_copied upper.entry)) }
    {
        let entries = node.entries.items();
        let next = entries.get(index + 1).map(|entry| &entry.0).or(upper);
        let upper = match next {
            Some(key) => Some(key.copy()?),
            None => None,
        };
        Ok(Bounds {
            least: 1016,
            lower: entries[index].0.copy()?,
            upper,
        })
    }

    // Whether a node is in its place.
    fn admits(&self, node: &Node) -> bool
        requires { IsNode node.now.level node.now.entries }
        ensures { IsTrue result ↔ IsInPlace node.now.level (meant self.now) node.now.entries }
    {
        let entries = node.entries.items();
        if bytes_of(entries) < self.least {
            return false;
        }
        if !are_from(entries, &self.lower) {
            return false;
        }
        if !are_within(entries, self.upper.as_ref()) {
            return false;
        }
        node.level == 0 || self.lower == entries[0].0
    }
}

// How many bytes entries take.
fn bytes_of(entries: &[(Key, Data)]) -> usize
    requires { size entries.now < 2 ^ 63 }
    ensures { result ≡ size entries.now }
{
    let mut total = 0;
    for entry in entries {
        total += 3 + entry.0.bytes().len() + entry.1.len();
    }
    total
}

// Whether no key is below one.
fn are_from(entries: &[(Key, Data)], lower: &Key) -> bool
    ensures { IsTrue result ↔ All (λ e. IsNotAbove lower.now e.0) entries.now }
{
    entries.iter().all(|entry| *lower <= entry.0)
}

// Whether each key is below a bound, if there is one.
fn are_within(entries: &[(Key, Data)], upper: Option<&Key>) -> bool
    ensures { IsTrue result ↔ All (λ e. IsWithin e.0 (option_copied upper.entry)) entries.now }
{
    for entry in entries {
        if !is_within(&entry.0, upper) {
            return false;
        }
    }
    true
}

// Whether a key is below a bound, if there is one.
fn is_within(key: &Key, bound: Option<&Key>) -> bool
    ensures { IsTrue result ↔ IsWithin key.now (option_copied bound.entry) }
{
    match bound {
        Some(bound) => key < bound,
        None => true,
    }
}

/// The address of the child of the entry at an index.
pub(crate) fn child_at(node: &Node, index: usize) -> u64
    requires node { IsNode node.now.level node.now.entries }
    requires above { 1 ≤ node.now.level }
    requires within { index < length node.now.entries }
    ensures { (before after : List Entry) (entry : Entry)
        → Splits node.now.entries index before entry after → IsAddress entry.1 result }
{
    u64_at(node.entries.items()[index].1.bytes(), 0)
}

/// The node at an address, in its place.
pub(crate) fn node_at(
    alloc: Global,
    blocks: &Blocks,
    at: u64,
    level: u32,
    bounds: &Bounds,
) -> Result<Node, Wrong>
    ensures level { IfOk result (λ node. node.level ≡ level) }
    ensures node { IfOk result (λ node.
        HasNode (store_of blocks.now) level at (meant bounds.now) node.entries) }
    ensures wrong { IfErr result (λ wrong.
        Refutes wrong ((entries : List Entry)
        × HasNode (store_of blocks.now) level at (meant bounds.now) entries)) }
{
    let Some(block) = blocks.get(at) else {
        return Err(Wrong::Breaks("a child stands"));
    };
    let Some(node) = Node::parse(alloc, block)? else {
        return Err(Wrong::Breaks("what stands in a tree is a node"));
    };
    if node.level != level {
        return Err(Wrong::Breaks("a child is one level lower"));
    }
    if !bounds.admits(&node) {
        return Err(Wrong::Breaks("a node is in its place"));
    }
    Ok(node)
}
