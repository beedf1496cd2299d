//! What a change of a tree is going to write. All is read before anything is written.
ghost use Rattle.std.specs.Prelude.{◌≡◌, ◌+◌, ◌≤◌, ◌∷◌, [], Some, None, IfErr, OnOk, IsTrue};
ghost use Rattle.sea_base.specs.declared.space.SpaceFault.TheVariants.{NoMemory as OutOfMemory};
ghost use Rattle.sea_base.specs.Space.{Seen, IsKnown};
ghost use Rattle.sea_node.specs.Node.{IsNode, node_bytes};
ghost use Rattle.sea_tree.specs.Tree.{NodeAt};
ghost use Rattle.sea_tree.specs.Does.{Does, ChangesAtMost, ArePlaced, SplicesOnce, is_among};
ghost use Rattle.sea_tree.specs.Reads.{ReadsNothing};
ghost use Rattle.sea_tree.specs.Mending.{after_edit};
ghost use Rattle.sea_tree.specs.Plan.{change_of, changes_of, fills, count_filled, plan_changes, plan_fills, IsWritten, CanSplice};
ghost use Rattle.sea_tree.specs.Form.{IsKept};
ghost use Rattle.sea_base.specs.Ghosts.{IsReady, IsCall};
ghost use Rattle.std.specs.Result.{result_err};

use crate::edit::Edit;
use crate::splice::Splice;
use sea_base::{Block, Laddr, NoMemory, Sequence, Space, SpaceFault};
use sea_node::{ENTRY_BYTES, Node};
use std::alloc::Global;

/// One thing to be written.
#[derive(Debug, Drop)]
pub(crate) enum Write {
    /// A whole block.
    Whole {
        /// Its address.
        at: Laddr,
        /// The block.
        block: Block,
    },
    /// Nothing is left.
    Gone {
        /// The address.
        at: Laddr,
    },
}

/// How many blocks a change of a pair leaves at most: two a level, and one more above a root that
/// splits.
pub const CHANGED_BLOCKS: usize = 17;

/// What is to be written, in order.
pub(crate) type Writes = Sequence<Write>;

/// What a change is going to write: blocks and gaps in order, and behind them at most one splice.
#[derive(Debug, Drop)]
pub(crate) struct Plan {
    /// The blocks and gaps.
    pub writes: Writes,
    /// The splice.
    pub splice: Option<Splice>,
}

impl Write {
    /// The address that it is to be written at.
    pub fn at(&self) -> Laddr
        ensures { result.0 ≡ (change_of self.now).0 }
    {
        match self {
            Write::Whole { at, .. } => *at,
            Write::Gone { at } => *at,
        }
    }
}

impl Plan {
    /// Nothing is planned. It takes no memory.
    pub fn new(alloc: Global) -> Plan
        ensures writes { result.writes ≡ [] }
        ensures splice { result.splice ≡ None }
    {
        Plan {
            writes: Writes::new(alloc),
            splice: None,
        }
    }
}

/// Plans to write a node.
pub(crate) fn plan_node(
    alloc: Global,
    writes: &mut Writes,
    at: Laddr,
    node: &Node,
) -> Result<(), NoMemory>
    requires { IsNode node.now.level node.now.entries }
    ensures planned { OnOk result (changes_of writes.new
        ≡ (at.0, Some (node_bytes node.now.level node.now.entries)) ∷ changes_of writes.old) }
    ensures few { OnOk result (count_filled writes.new ≡ count_filled writes.old + 1) }
{
    let block = node.print(alloc)?;
    writes.push(Write::Whole { at, block })
}

/// Plans to leave nothing at an address.
pub(crate) fn plan_gone(writes: &mut Writes, at: Laddr) -> Result<(), NoMemory>
    ensures planned { OnOk result (changes_of writes.new ≡ (at.0, None) ∷ changes_of writes.old) }
    ensures few { OnOk result (count_filled writes.new ≡ count_filled writes.old) }
{
    writes.push(Write::Gone { at })
}

/// Plans to write a node that stands at an address after an edit: a pair that comes or goes by a
/// splice, unless something is planned at that address, which only a space that gives a filled
/// address leads to.
pub(crate) fn plan_edit(
    alloc: Global,
    plan: &mut Plan,
    at: Laddr,
    node: &Node,
    edit: Edit,
    edited: &Node,
) -> Result<(), NoMemory>
    requires node { IsNode node.now.level node.now.entries }
    requires edited { IsNode edited.now.level edited.now.entries }
    requires level { edited.now.level ≡ node.now.level }
    requires edit { edited.now.entries ≡ after_edit edit node.now.entries }
    requires first { plan.old.splice ≡ None }
    ensures planned { OnOk result (plan_changes plan.new
        ≡ (at.0, Some (node_bytes node.now.level edited.now.entries)) ∷ plan_changes plan.old) }
    ensures kept { OnOk result
        (IsKept at.0 node.now.entries edit (plan_changes plan.old) plan.new.splice) }
    ensures few { OnOk result (plan_fills plan.new ≡ plan_fills plan.old + 1) }
    ensures spliced { OnOk result ((seen : Seen) → IsKnown seen at.0
        → NodeAt seen.view at.0 node.now.level node.now.entries → CanSplice seen plan.new) }
{
    let Edit::Pair { key, value } = edit else {
        return plan_node(alloc, &mut plan.writes, at, edited);
    };
    if is_planned(&plan.writes, at) {
        return plan_node(alloc, &mut plan.writes, at, edited);
    }
    let delta = node.edit(alloc, &key, value.as_ref())?;
    let block = edited.print(alloc)?;
    plan.splice = Some(Splice { at, delta, block });
    Ok(())
}

// Whether something is planned at an address.
fn is_planned(writes: &Writes, at: Laddr) -> bool
    ensures { result ≡ is_among (changes_of writes.now) at.0 }
{
    for write in writes.items() {
        if write.at() == at {
            return true;
        }
    }
    false
}

/// Writes what is planned. Nothing is read.
pub(crate) fn perform<S: Space>(space: &mut S, plan: Plan) -> Result<(), SpaceFault>
    requires ready { IsReady S.Space space.old }
    requires spliced { CanSplice (S.seen space.old) plan }
    ensures done { OnOk result (Does (plan_changes plan) (S.seen space.old) (S.seen space.new)) }
    ensures written { OnOk result (IsWritten plan (S.seen space.old) (S.seen space.new)) }
    ensures few { OnOk result
        (ChangesAtMost (plan_fills plan) (S.seen space.old) (S.seen space.new)) }
    ensures once { OnOk result (SplicesOnce ENTRY_BYTES (S.seen space.old) (S.seen space.new)) }
    ensures unread { OnOk result (ReadsNothing (S.seen space.old) (S.seen space.new)) }
    ensures memory { IfErr result (λ fault. fault ≡ OutOfMemory) }
    ensures next { (S.seen space.new).next ≡ (S.seen space.old).next }
    ensures call { IsCall S.Space space.old space.new (result_err result) }
{
    let Plan { writes, splice } = plan;
    write_all(space, writes)?;
    match splice {
        Some(Splice { at, delta, block }) => space.amend(at, delta, block),
        None => Ok(()),
    }
}

// Writes blocks and gaps in order.
fn write_all<S: Space>(space: &mut S, writes: Writes) -> Result<(), SpaceFault>
    requires { IsReady S.Space space.old }
    ensures done { OnOk result (Does (changes_of writes) (S.seen space.old) (S.seen space.new)) }
    ensures placed { OnOk result (ArePlaced (changes_of writes) (S.seen space.new)) }
    ensures few { OnOk result (ChangesAtMost (count_filled writes) (S.seen space.old)
        (S.seen space.new)) }
    ensures unread { OnOk result (ReadsNothing (S.seen space.old) (S.seen space.new)) }
    ensures memory { IfErr result (λ fault. fault ≡ OutOfMemory) }
    ensures next { (S.seen space.new).next ≡ (S.seen space.old).next }
    ensures call { IsCall S.Space space.old space.new (result_err result) }
{
    for write in writes.into_vec() {
        carry_out(space, write)?;
    }
    Ok(())
}

// Writes one thing.
fn carry_out<S: Space>(space: &mut S, write: Write) -> Result<(), SpaceFault>
    requires { IsReady S.Space space.old }
    ensures done { OnOk result (Does (change_of write ∷ []) (S.seen space.old) (S.seen space.new)) }
    ensures placed { OnOk result (ArePlaced (change_of write ∷ []) (S.seen space.new)) }
    ensures few { OnOk result (ChangesAtMost (fills write) (S.seen space.old) (S.seen space.new)) }
    ensures unread { OnOk result (ReadsNothing (S.seen space.old) (S.seen space.new)) }
    ensures memory { IfErr result (λ fault. fault ≡ OutOfMemory) }
    ensures next { (S.seen space.new).next ≡ (S.seen space.old).next }
    ensures call { IsCall S.Space space.old space.new (result_err result) }
{
    match write {
        Write::Whole { at, block } => space.put(at, block),
        Write::Gone { at } => space.drop_at(at),
    }
}
