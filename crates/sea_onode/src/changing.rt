//! Saving an onode under a name, and erasing one.
ghost use Rattle.std.specs.Prelude.{◌≡◌, ◌≤◌, ◌<◌, ◌+◌, ◌^◌, ◌↔◌, Some, IfErr, OnOk, IsTrue};
ghost use Rattle.sea_base.specs.Ghosts.{IsReady, IsCall};
ghost use Rattle.sea_base.specs.Space.{Store};
ghost use Rattle.sea_tree.specs.Calls.{ChangeFootprint, ChangeFailure, space_fault};
ghost use Rattle.sea_onode.specs.Onodes.{Onodes};
ghost use Rattle.sea_onode.specs.Calls.{Meets, Saves, Erases, SaveForm, EraseForm, NotesMore};

use crate::{ONODE_ROOT, spell_onode};
use sea_base::{Data, Name, Space};
use sea_object::Onode;
use sea_tree::{TreeFault, del, get, put};
use std::alloc::Global;

/// Saves an onode under a name, in place of the one that stood there, if there was one. Where it is
/// the same, nothing is changed.
pub fn save<S: Space>(
    alloc: Global,
    space: &mut S,
    name: &Name,
    onode: &Onode,
) -> Result<(), TreeFault>
    requires ready { IsReady S.Space space.old }
    requires room { (S.seen space.old).next < 2 ^ 62 + 2 ^ 46 }
    ensures changed { OnOk result ((store : Store) (onodes : Onodes)
        → Meets store (S.seen space.old) (S.seen space.new) onodes
        → Saves store name.now onode.now (S.seen space.old) (S.seen space.new) onodes) }
    ensures form { OnOk result ((store : Store) (onodes : Onodes)
        → Meets store (S.seen space.old) (S.seen space.new) onodes
        → SaveForm store name.now onode.now (S.seen space.old) (S.seen space.new) onodes) }
    ensures footprint { OnOk result
        (ChangeFootprint 1 name.now (S.seen space.old) (S.seen space.new)) }
    ensures notes { OnOk result (NotesMore (S.seen space.old) (S.seen space.new)) }
    ensures failure { IfErr result
        (ChangeFailure 1 name.now (S.seen space.old) (S.seen space.new)) }
    ensures next { ((S.seen space.old).next ≤ (S.seen space.new).next)
        × ((S.seen space.new).next < (S.seen space.old).next + 2 ^ 20) }
    ensures call { IsCall S.Space space.old space.new (space_fault result) }
{
    let value = spell_onode(alloc, *onode)?;
    let old = get(space, ONODE_ROOT, name)?;
    if is_value(old, &value) {
        return Ok(());
    }
    put(alloc, space, ONODE_ROOT, name, &value)?;
    Ok(())
}

// Whether a value was found, and is this one.
fn is_value(found: Option<Data>, value: &Data) -> bool
    ensures { IsTrue result ↔ (found ≡ Some value.now) }
{
    match found {
        Some(found) => found == *value,
        None => false,
    }
}

/// Erases the onode under a name, if there is one.
pub fn erase<S: Space>(alloc: Global, space: &mut S, name: &Name) -> Result<(), TreeFault>
    requires ready { IsReady S.Space space.old }
    requires room { (S.seen space.old).next < 2 ^ 62 + 2 ^ 46 }
    ensures changed { OnOk result ((store : Store) (onodes : Onodes)
        → Meets store (S.seen space.old) (S.seen space.new) onodes
        → Erases store name.now (S.seen space.old) (S.seen space.new) onodes) }
    ensures form { OnOk result ((store : Store) (onodes : Onodes)
        → Meets store (S.seen space.old) (S.seen space.new) onodes
        → EraseForm name.now (S.seen space.old) (S.seen space.new) onodes) }
    ensures footprint { OnOk result
        (ChangeFootprint 1 name.now (S.seen space.old) (S.seen space.new)) }
    ensures notes { OnOk result (NotesMore (S.seen space.old) (S.seen space.new)) }
    ensures failure { IfErr result
        (ChangeFailure 1 name.now (S.seen space.old) (S.seen space.new)) }
    ensures next { ((S.seen space.old).next ≤ (S.seen space.new).next)
        × ((S.seen space.new).next < (S.seen space.old).next + 2 ^ 20) }
    ensures call { IsCall S.Space space.old space.new (space_fault result) }
{
    del(alloc, space, ONODE_ROOT, name)?;
    Ok(())
}
