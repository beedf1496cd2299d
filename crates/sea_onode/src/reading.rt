//! Reading the onode tree: the onode under a name, and the names in order.
ghost use Rattle.std.specs.Prelude.{◌≡◌, IfOk, IfErr, OnOk, map as each};
ghost use Rattle.std.specs.Option.{option_copied};
ghost use Rattle.sea_base.specs.Ghosts.{IsReady, IsCall};
ghost use Rattle.sea_base.specs.Space.{Store, OnlyRead};
ghost use Rattle.sea_tree.specs.Calls.{IsWholePath, IsRangeFault, space_fault};
ghost use Rattle.sea_tree.specs.Reads.{ReadsPath};
ghost use Rattle.sea_onode.specs.Onodes.{Onodes, first_names};
ghost use Rattle.sea_onode.specs.Calls.{Meets, Finds, IsFindFault, ListsFrom, first_after};

use crate::{ONODE_ROOT, read_onode};
use sea_base::{Duplicate, Name, Names, NoMemory, Pairs, Space};
use sea_object::Onode;
use sea_tree::{TreeFault, get, range};
use std::alloc::Global;

/// The onode under a name.
pub fn find<S: Space>(space: &mut S, name: &Name) -> Result<Option<Onode>, TreeFault>
    requires { IsReady S.Space space.old }
    ensures found { IfOk result (Finds name.now (S.seen space.old) (S.seen space.new)) }
    ensures whole { OnOk result (IsWholePath 1 name.now (S.seen space.old) (S.seen space.new)) }
    ensures fault { IfErr result (IsFindFault name.now (S.seen space.old) (S.seen space.new)) }
    ensures within { ReadsPath 1 name.now (S.seen space.old) (S.seen space.new) }
    ensures reads { OnlyRead (S.seen space.old) (S.seen space.new) }
    ensures call { IsCall S.Space space.old space.new (space_fault result) }
{
    let Some(value) = get(space, ONODE_ROOT, name)? else {
        return Ok(None);
    };
    match read_onode(value.bytes()) {
        Some(onode) => Ok(Some(onode)),
        None => Err(TreeFault::Broken { at: ONODE_ROOT }),
    }
}

/// The first `limit` names behind one, or with none of all names, in order.
pub fn names<S: Space>(
    alloc: Global,
    space: &mut S,
    after: Option<&Name>,
    limit: u32,
) -> Result<Names, TreeFault>
    requires { IsReady S.Space space.old }
    ensures names { IfOk result (λ found. (store : Store) (onodes : Onodes)
        → Meets store (S.seen space.old) (S.seen space.new) onodes
        → found ≡ first_names limit (option_copied after.entry) onodes) }
    ensures listed { IfOk result (λ found.
        ListsFrom (first_after (option_copied after.entry)) limit found
        (S.seen space.old) (S.seen space.new)) }
    ensures fault { IfErr result (IsRangeFault 1 (first_after (option_copied after.entry))
        (S.seen space.old) (S.seen space.new)) }
    ensures reads { OnlyRead (S.seen space.old) (S.seen space.new) }
    ensures call { IsCall S.Space space.old space.new (space_fault result) }
{
    let pairs = range(alloc, space, ONODE_ROOT, after, limit)?;
    let names = names_of(alloc, &pairs)?;
    Ok(names)
}

// The names of pairs, in their order.
fn names_of(alloc: Global, pairs: &Pairs) -> Result<Names, NoMemory>
    ensures { IfOk result (λ names. names ≡ each (λ e. e.0) pairs.now) }
{
    let mut names = Names::new(alloc);
    let items = pairs.items();
    for (name, _) in items {
        names.push(name.copy()?)?;
    }
    Ok(names)
}
