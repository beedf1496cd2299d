//! One node in its place.
ghost use Rattle.std.specs.Prelude.{◌≡◌, ℕ, ◌+◌, ◌<◌, ◌≤◌, ◌∷◌, ◌++◌, List, None, IsTrue, IfOk, IfSome, IfNone, IfErr, OnOk, ◌↔◌, length};
ghost use Rattle.std.specs.Option.{option_copied};
ghost use Rattle.sea_base.specs.Field.{big_endian};
ghost use Rattle.sea_base.specs.Space.{IsKnown, OnlyRead, ReadsAtMost};
ghost use Rattle.sea_node.specs.Entries.{Entry, IsNotAbove};
ghost use Rattle.sea_node.specs.Node.{IsNode};
ghost use Rattle.sea_tree.specs.Tree.{root_bounds, child_bounds, IsInPlace, IsAddress, LiesWithin, IsWithin, first_key};
ghost use Rattle.sea_tree.specs.Breaks.{HasNode};
ghost use Rattle.sea_tree.specs.Place.{meant, Splits, IsPlaceFault, IsRootFault};
ghost use Rattle.sea_base.specs.Ghosts.{IsReady, IsCall};
ghost use Rattle.sea_tree.specs.Calls.{space_fault};

use crate::TreeFault;
use crate::cut::size_of;
use sea_base::{Data, Duplicate, Key, Laddr, NoMemory, Space, put_u64, u64_at};
use sea_node::Node;
use std::alloc::Global;

/// How many bytes of entries a node below the root has at least.
pub(crate) const LEAST_BYTES: u32 = 1016;

/// How many bytes a separator takes at most with its address: the lengths of both, 64 and 8 bytes.
pub(crate) const SEPARATOR_BYTES: usize = 75;

/// What a node's parent asks of it beside its level.
#[derive(Debug, Drop)]
pub(crate) struct Bounds {
    /// The least bytes of entries that it has.
    pub least: u32,
    /// The separator that leads to it.
    pub lower: Key,
    /// The next separator.
    pub upper: Option<Key>,
}

impl Bounds {
    /// What is asked of a root.
    pub fn root(alloc: Global) -> Result<Bounds, NoMemory>
        ensures { IfOk result (λ bounds. meant bounds ≡ root_bounds) }
    {
        let lower = Key::new(alloc, &[0]).map_err(|_| NoMemory)?;
        Ok(Bounds {
            least: 0,
            lower,
            upper: None,
        })
    }

    /// What a node with this upper bound asks of the child of its entry at an index.
    pub fn of_child(node: &Node, index: usize, upper: Option<&Key>) -> Result<Bounds, NoMemory>
        requires { index < length node.now.entries }
        ensures { IfOk result (λ bounds. (before after : List Entry) (entry : Entry)
            → Splits node.now.entries index before entry after
            → meant bounds ≡ child_bounds entry after (option_copied upper.entry)) }
    {
        let entries = node.entries.items();
        let next = entries.get(index + 1).map(|entry| &entry.0).or(upper);
        let upper = match next {
            Some(key) => Some(key.copy()?),
            None => None,
        };
        Ok(Bounds {
            least: LEAST_BYTES,
            lower: entries[index].0.copy()?,
            upper,
        })
    }

    // Whether a node is in its place.
    fn admits(&self, node: &Node) -> bool
        requires { IsNode node.now.level node.now.entries }
        ensures { IsTrue result ↔ IsInPlace node.now.level (meant self.now) node.now.entries }
    {
        let entries = node.entries.items();
        let first = &entries[0].0;
        let last = &entries[entries.len() - 1].0;
        if size_of(entries) < self.least as usize {
            return false;
        }
        if !is_below(last, self.upper.as_ref()) {
            return false;
        }
        if node.level == 0 {
            self.lower <= *first
        } else {
            self.lower == *first
        }
    }
}

/// Whether a key is below a bound, if there is one.
pub(crate) fn is_below(key: &Key, bound: Option<&Key>) -> bool
    ensures { IsTrue result ↔ IsWithin key.now (option_copied bound.entry) }
{
    match bound {
        Some(bound) => key < bound,
        None => true,
    }
}

/// The address of the child of an entry.
pub(crate) fn child_at(node: &Node, index: usize) -> Laddr
    requires node { IsNode node.now.level node.now.entries }
    requires above { 1 ≤ node.now.level }
    requires within { index < length node.now.entries }
    ensures { (before after : List Entry) (entry : Entry)
        → Splits node.now.entries index before entry after → IsAddress entry.1 result.0 }
{
    Laddr(u64_at(node.entries.items()[index].1.bytes(), 0))
}

/// The address that a value leads to.
pub(crate) fn address_of(value: &Data) -> Laddr
    requires { length value.now ≡ 8 }
    ensures { IsAddress value.now result.0 }
{
    Laddr(u64_at(value.bytes(), 0))
}

/// The value that leads to an address.
pub(crate) fn value_of(alloc: Global, at: Laddr) -> Result<Data, NoMemory>
    ensures { IfOk result (λ value. value ≡ big_endian 8 at.0) }
{
    let mut bytes = [0; 8];
    put_u64(&mut bytes, 0, at.0);
    Data::new(alloc, &bytes)
}

/// The index of the last entry whose key is not above a key.
pub(crate) fn index_towards(node: &Node, key: &Key) -> usize
    requires node { IsNode node.now.level node.now.entries }
    requires some { IsNotAbove (first_key node.now.entries) key.now }
    ensures within { result < length node.now.entries }
    ensures leads { (before after : List Entry) (entry : Entry)
        → Splits node.now.entries result before entry after
        → LiesWithin key.now (child_bounds entry after None) }
{
    node.entries
        .items()
        .partition_point(|entry| entry.0 <= *key)
        - 1
}

/// Reads the node at an address in its place.
pub(crate) fn node_at<S: Space>(
    alloc: Global,
    space: &mut S,
    at: Laddr,
    level: u32,
    bounds: &Bounds,
) -> Result<Node, TreeFault>
    requires { IsReady S.Space space.old }
    ensures level { IfOk result (λ node. node.level ≡ level) }
    ensures node { IfOk result (λ node.
        HasNode (S.seen space.new).view level at.0 (meant bounds.now) node.entries) }
    ensures known { OnOk result (IsKnown (S.seen space.new) at.0) }
    ensures fault { IfErr result (IsPlaceFault level at.0 (meant bounds.now) (S.seen space.new)) }
    ensures one { ReadsAtMost at.0 (S.seen space.old) (S.seen space.new) }
    ensures reads { OnlyRead (S.seen space.old) (S.seen space.new) }
    ensures call { IsCall S.Space space.old space.new (space_fault result) }
{
    let Some(block) = space.get(at)? else {
        return Err(TreeFault::Broken { at });
    };
    let Some(node) = Node::parse(alloc, &block)? else {
        return Err(TreeFault::Broken { at });
    };
    if node.level != level || !bounds.admits(&node) {
        return Err(TreeFault::Broken { at });
    }
    Ok(node)
}

/// Reads the root of a tree, or nothing where the tree is empty.
pub(crate) fn root_at<S: Space>(
    alloc: Global,
    space: &mut S,
    root: Laddr,
) -> Result<Option<Node>, TreeFault>
    requires { IsReady S.Space space.old }
    ensures node { IfOk result (λ found.
        IfSome found (λ node.
        HasNode (S.seen space.new).view node.level root.0 root_bounds node.entries)) }
    ensures none { IfOk result (λ found. IfNone found ((S.seen space.new).view root.0 ≡ None)) }
    ensures known { OnOk result (IsKnown (S.seen space.new) root.0) }
    ensures fault { IfErr result (IsRootFault root.0 (S.seen space.new)) }
    ensures one { ReadsAtMost root.0 (S.seen space.old) (S.seen space.new) }
    ensures reads { OnlyRead (S.seen space.old) (S.seen space.new) }
    ensures call { IsCall S.Space space.old space.new (space_fault result) }
{
    let Some(block) = space.get(root)? else {
        return Ok(None);
    };
    let Some(node) = Node::parse(alloc, &block)? else {
        return Err(TreeFault::Broken { at: root });
    };
    if !Bounds::root(alloc)?.admits(&node) {
        return Err(TreeFault::Broken { at: root });
    }
    Ok(Some(node))
}
