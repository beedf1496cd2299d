//! One slot, which has an object or none.
ghost use Rattle.std.specs.Prelude.{◌≡◌, Some, None, option_map, IfOk, IfErr, OnOk, OnErr};
ghost use Rattle.sea_object.specs.Answer.{object_after, refusal_at};
ghost use Rattle.sea_object.specs.Held.{shown};
ghost use Rattle.sea_object.specs.Op.{IsWithinLimits};
ghost use Rattle.sea_object.specs.Undo.{CanUndoSlot, MayHalt, undone_slot};

use crate::undo::{Halt, Undo};
use crate::{Kind, Object, Op, Why};
use std::alloc::Global;
use std::mem::drop;

/// Has an operation's effect on a slot, and answers what takes it back. Where the operation comes
/// to a halt all is as before.
pub(crate) fn change_slot(alloc: Global, slot: &mut Option<Object>, op: &Op) -> Result<Undo, Halt>
    requires { IsWithinLimits op.now }
    ensures fits { OnOk result (refusal_at op.now (option_map shown slot.old) ≡ None) }
    ensures ok { OnOk result
        (option_map shown slot.new ≡ object_after op.now (option_map shown slot.old)) }
    ensures can { IfOk result (λ undo. CanUndoSlot undo slot.new) }
    ensures undo { IfOk result (λ undo. undone_slot undo slot.new ≡ slot.old) }
    ensures err { OnErr result (slot.new ≡ slot.old) }
    ensures refused { IfErr result (MayHalt (refusal_at op.now (option_map shown slot.old))) }
{
    match slot.take() {
        Some(object) => change_object(slot, object, op),
        None => make_object(alloc, slot, op),
    }
}

// The same for an object that was taken out of its slot.
fn change_object(slot: &mut Option<Object>, mut object: Object, op: &Op) -> Result<Undo, Halt>
    requires { IsWithinLimits op.now }
    ensures fits { OnOk result (refusal_at op.now (Some (shown object)) ≡ None) }
    ensures ok { OnOk result
        (option_map shown slot.new ≡ object_after op.now (Some (shown object))) }
    ensures can { IfOk result (λ undo. CanUndoSlot undo slot.new) }
    ensures undo { IfOk result (λ undo. undone_slot undo slot.new ≡ Some object) }
    ensures err { OnErr result (slot.new ≡ Some object) }
    ensures refused { IfErr result (MayHalt (refusal_at op.now (Some (shown object)))) }
{
    if let Op::Remove { .. } = op {
        *slot = None;
        return Ok(Undo::Slot(Some(object)));
    }
    let done = object.change(op);
    *slot = Some(object);
    done
}

// The same where there was no object.
fn make_object(alloc: Global, slot: &mut Option<Object>, op: &Op) -> Result<Undo, Halt>
    requires { IsWithinLimits op.now }
    ensures fits { OnOk result (refusal_at op.now None ≡ None) }
    ensures ok { OnOk result (option_map shown slot.new ≡ object_after op.now None) }
    ensures can { IfOk result (λ undo. CanUndoSlot undo slot.new) }
    ensures undo { IfOk result (λ undo. undone_slot undo slot.new ≡ None) }
    ensures err { OnErr result (slot.new ≡ None) }
    ensures refused { IfErr result (MayHalt (refusal_at op.now None)) }
{
    *slot = None;
    match op.kind() {
        Kind::Asks => Ok(Undo::Nothing),
        Kind::Puts | Kind::Takes => Err(Halt::Refused(Why::NoObject)),
        Kind::Makes => {
            let mut object = Object::new(alloc);
            let _ = object.change(op)?;
            *slot = Some(object);
            Ok(Undo::Slot(None))
        }
    }
}

/// Takes an operation on a slot back.
pub(crate) fn undo_slot(slot: &mut Option<Object>, undo: Undo)
    requires { CanUndoSlot undo slot.old }
    ensures { slot.new ≡ undone_slot undo slot.old }
{
    match undo {
        Undo::Slot(old) => *slot = old,
        undo => {
            if let Some(object) = slot {
                object.undo(undo);
            }
        }
    }
}

/// Gives up what would take an operation on a slot back.
pub(crate) fn settle_slot(slot: &mut Option<Object>, undo: Undo)
    ensures { option_map shown slot.new ≡ option_map shown slot.old }
{
    if let Some(object) = slot {
        object.settle(undo);
        return;
    }
    drop(undo);
}
