//! How the blocks of a store are shared out among its objects.
ghost use Rattle.std.specs.Prelude.{◌≡◌, ◌+◌, ◌*◌, ◌-◌, ◌<◌, ◌++◌, ◌↔◌, IsTrue, IfOk};
ghost use Rattle.std.specs.List.{All, flat_map};
ghost use Rattle.sea_onode.specs.Order.{IsInRange};
ghost use Rattle.sea_ops.specs.WellFormed.{IsDataOf};
ghost use Rattle.sea_formed.specs.Shares.{AreFar, IsAlone, AreAlone, HasUse, nodes_of, EndsBefore};

use crate::object::Held;
use sea_base::NoMemory;
use sea_object::Onode;
use std::alloc::Global;

/// Whether each two of some numbers are so far from each other.
pub(crate) fn are_far(numbers: &[u64], by: u64) -> bool
    ensures { IsTrue result ↔ AreFar by numbers.now }
{
    match numbers {
        [] => true,
        [first, others @ ..] => {
            others.iter().all(|other| first.abs_diff(*other) >= by) && are_far(others, by)
        }
    }
}

// Whether an address is one of an object's.
fn is_in_range(onode: &Onode, at: u64) -> bool
    ensures { IsTrue result ↔ IsInRange onode.now at }
{
    onode.base.0 <= at && at - onode.base.0 < 4098
}

// Whether an address is that of a data block that holds bytes of an object.
fn is_data(onode: &Onode, at: u64) -> bool
    ensures { IsTrue result → IsDataOf onode.now at }
{
    if !is_in_range(onode, at) || at - onode.base.0 < 2 {
        return false;
    }
    if (at - onode.base.0 - 2) * 4096 >= u64::from(onode.size) {
        return false;
    }
    true
}

// Whether an address is among those of an object only if it is this root.
fn is_alone(root: u64, at: u64, held: &[Held]) -> bool
    ensures { IsTrue result ↔ IsAlone held.now root at }
{
    at == root || held.iter().all(|one| !is_in_range(&one.onode, at))
}

/// Whether no node of a tree but its root is among the addresses of an object.
pub(crate) fn are_alone(root: u64, nodes: &[u64], held: &[Held]) -> bool
    ensures { IsTrue result ↔ AreAlone held.now root nodes.now }
{
    nodes.iter().all(|at| is_alone(root, *at, held))
}

/// The nodes of all trees.
pub(crate) fn all_nodes(alloc: Global, own: &[u64], held: &[Held]) -> Result<Vec<u64>, NoMemory>
    ensures { IfOk result (λ nodes. nodes.items ≡ own.now ++ flat_map nodes_of held.now) }
{
    let mut nodes = Vec::from_slice(alloc, own)?;
    for one in held {
        nodes.extend_from_slice(&one.attributes.nodes)?;
        nodes.extend_from_slice(&one.omap.nodes)?;
    }
    Ok(nodes)
}

/// Whether a filled address is a node of a tree, or holds bytes of an object.
pub(crate) fn has_use(at: u64, nodes: &[u64], held: &[Held]) -> bool
    ensures { IsTrue result → HasUse nodes.now held.now at }
{
    if nodes.contains(&at) {
        return true;
    }
    for one in held {
        if is_data(&one.onode, at) {
            return true;
        }
    }
    false
}

/// Whether a filled address is no data block behind the end of an object.
pub(crate) fn ends_before(at: u64, held: &[Held]) -> bool
    ensures { IsTrue result ↔ All (λ one. EndsBefore one.onode at) held.now }
{
    held.iter().all(|one| ends_one(&one.onode, at))
}

// The same of one object.
fn ends_one(onode: &Onode, at: u64) -> bool
    ensures { IsTrue result ↔ EndsBefore onode.now at }
{
    if !is_in_range(onode, at) || at - onode.base.0 < 2 {
        return true;
    }
    (at - onode.base.0 - 2) * 4096 < u64::from(onode.size)
}
