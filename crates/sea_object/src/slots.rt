//! Slots for objects under their names.
ghost use Rattle.std.specs.Prelude.{◌≡◌, ◌++◌, ◌+◌, ◌<◌, ◌^◌, None, length};
ghost use Rattle.std.specs.Prelude.{IfOk, IfErr, OnOk, OnErr};
ghost use Rattle.std.specs.List.{AllByRecursion};
ghost use Rattle.std.specs.Option.{option_copied, option_flatten};
ghost use Rattle.sea_object.specs.Answer.{effect, effects, object_after};
ghost use Rattle.sea_object.specs.Answer.{first_refused, refusal, refusal_at};
ghost use Rattle.sea_object.specs.Answer.{item, item_at, items, listed};
ghost use Rattle.sea_object.specs.Objects.{first_names};
ghost use Rattle.sea_object.specs.Op.{IsWithinLimits, name_of};
ghost use Rattle.sea_object.specs.Undo.{CanStepBack, CanTakeBack, CanUndoFound, MayHalt, MayStop};
ghost use Rattle.sea_object.specs.Undo.{put_back, stepped_back, taken_back};

use crate::named::{behind, copy_named};
use crate::slot::{change_slot, settle_slot, undo_slot};
use crate::undo::{Halt, Step, Stop, Undo};
use crate::{Item, Items, Object, Op};
use sea_base::{Duplicate, Name, Names, NoMemory};
use std::alloc::Global;
use std::collections::BTreeMap;
use std::marker::Model;
use std::mem::drop;
use std::ops::Bound;

/// Slots under names, each of which has an object, or is empty while one may come back.
#[derive(Debug, Drop)]
pub(crate) struct Slots {
    alloc: Global,
    slots: BTreeMap<Name, Option<Object>>,
}

impl Model for Slots {
    ghost use Rattle.std.specs.FinMap as map;
    ghost use Rattle.sea_object.specs.Held.{SlotMap, slots_code};

    ghost Value = { SlotMap };

    ghost coded = { slots_code };

    ghost view = { λ s. map.from_entries s.slots.entries };
}

impl Slots {
    ghost use Rattle.std.specs.FinMap as map;
    ghost use Rattle.sea_object.specs.Held.{shown_objects};
    ghost use Rattle.sea_object.specs.Objects.{with_object};

    /// No slot. It takes no memory.
    pub(crate) fn new(alloc: Global) -> Slots
        ensures { result ≡ map.empty }
    {
        Slots {
            alloc,
            slots: BTreeMap::new(alloc),
        }
    }

    /// The object of this name.
    pub(crate) fn get(&self, name: &Name) -> Option<&Object>
        ensures { option_copied result ≡ option_flatten (map.get self.now name.now) }
    {
        match self.slots.get(name) {
            Some(slot) => slot.as_ref(),
            None => None,
        }
    }

    /// The first names in order, of those behind one, `limit` of them at most.
    pub(crate) fn names(&self, limit: usize, after: Option<&Name>) -> Result<Names, NoMemory>
        ensures { IfOk result (λ names.
            names ≡ first_names limit (option_copied after.entry) (shown_objects self.now)) }
    {
        let mut names = Names::new(self.alloc);
        let start = behind(after)?;
        for (name, slot) in self.slots.range((start, Bound::Unbounded)) {
            if names.items().len() >= limit {
                return Ok(names);
            }
            if slot.is_some() {
                names.push(name.copy()?)?;
            }
        }
        Ok(names)
    }

    /// What an operation answers.
    pub(crate) fn item(&self, op: &Op) -> Result<Item, NoMemory>
        ensures { IfOk result (λ made. made ≡ item op.now (shown_objects self.now)) }
    {
        match op.name() {
            Some(name) => self.item_of(name, op),
            None => self.listed(op),
        }
    }

    fn listed(&self, op: &Op) -> Result<Item, NoMemory>
        ensures { IfOk result (λ made. made ≡ listed op.now (shown_objects self.now)) }
    {
        match op {
            Op::List { limit, after } => {
                Ok(Item::Names(self.names(*limit as usize, after.as_ref())?))
            }
            _ => Ok(Item::Unit),
        }
    }

    fn item_of(&self, name: &Name, op: &Op) -> Result<Item, NoMemory>
        ensures { IfOk result
            (λ made. made ≡ item_at op.now (map.get (shown_objects self.now) name.now)) }
    {
        match self.get(name) {
            Some(object) => object.item(op),
            None => Ok(nothing_of(op)),
        }
    }

    /// Has an operation's effect, and answers what takes it back. Where the operation comes to a
    /// halt all is as before.
    pub(crate) fn change(&mut self, op: &Op) -> Result<Step, Halt>
        requires { IsWithinLimits op.now }
        ensures fits { OnOk result (refusal op.now (shown_objects self.old) ≡ None) }
        ensures ok { OnOk result (shown_objects self.new ≡ effect op.now (shown_objects self.old)) }
        ensures can { IfOk result (λ step. CanTakeBack step (name_of op.now) self.new) }
        ensures undo { IfOk result (λ step. taken_back step (name_of op.now) self.new ≡ self.old) }
        ensures err { OnErr result (self.new ≡ self.old) }
        ensures refused { IfErr result (MayHalt (refusal op.now (shown_objects self.old))) }
    {
        if !op.kind().changes() {
            return Ok(Step::Unchanged);
        }
        match op.name() {
            Some(name) => self.change_at(name, op),
            None => Ok(Step::Unchanged),
        }
    }

    fn change_at(&mut self, name: &Name, op: &Op) -> Result<Step, Halt>
        requires { IsWithinLimits op.now }
        ensures fits { OnOk result
            (refusal_at op.now (map.get (shown_objects self.old) name.now) ≡ None) }
        ensures ok { OnOk result
            (shown_objects self.new ≡ with_object (shown_objects self.old) name.now
            (object_after op.now (map.get (shown_objects self.old) name.now))) }
        ensures can { IfOk result (λ step. CanStepBack step name.now self.new) }
        ensures undo { IfOk result (λ step. stepped_back step name.now self.new ≡ self.old) }
        ensures err { OnErr result (self.new ≡ self.old) }
        ensures refused { IfErr result
            (MayHalt (refusal_at op.now (map.get (shown_objects self.old) name.now))) }
    {
        if let Some(slot) = self.slots.get_mut(name) {
            return Ok(Step::Changed(change_slot(self.alloc, slot, op)?));
        }
        let mut slot = None;
        let _ = change_slot(self.alloc, &mut slot, op)?;
        self.slots.insert(name.copy()?, slot)?;
        Ok(Step::Added)
    }

    /// Does operations in order, and appends their items. Where they come to a stop each one is
    /// taken back. A request has few, so the calls do not nest deep.
    pub(crate) fn run(&mut self, number: u32, ops: &[Op], answers: &mut Items) -> Result<(), Stop>
        requires limits { AllByRecursion IsWithinLimits ops.now }
        requires few { number + length ops.now < 2 ^ 32 }
        ensures items { OnOk result
            (answers.new ≡ answers.old ++ items ops.now (shown_objects self.old)) }
        ensures after { OnOk result
            (shown_objects self.new ≡ effects ops.now (shown_objects self.old)) }
        ensures done { OnOk result (first_refused ops.now number (shown_objects self.old) ≡ None) }
        ensures err { OnErr result (self.new ≡ self.old) }
        ensures refused { IfErr result
            (MayStop (first_refused ops.now number (shown_objects self.old))) }
    {
        let Some((op, rest)) = ops.split_first() else {
            return Ok(());
        };
        answers.push(self.item(op)?)?;
        let step = match self.change(op) {
            Ok(step) => step,
            Err(halt) => return Err(halt.at(number)),
        };
        let done = self.run(number + 1, rest, answers);
        if done.is_err() {
            self.take_back(op, step);
        } else {
            self.settle(op, step);
        }
        done
    }

    // Gives up what would take an operation back.
    fn settle(&mut self, op: &Op, step: Step)
        ensures { shown_objects self.new ≡ shown_objects self.old }
    {
        if let (Some(name), Step::Changed(undo)) = (op.name(), step) {
            self.settle_at(name, undo);
        }
    }

    fn settle_at(&mut self, name: &Name, undo: Undo)
        ensures { shown_objects self.new ≡ shown_objects self.old }
    {
        if let Some(slot) = self.slots.get_mut(name) {
            settle_slot(slot, undo);
            return;
        }
        drop(undo);
    }

    // Takes an operation back.
    fn take_back(&mut self, op: &Op, step: Step)
        requires { CanTakeBack step (name_of op.now) self.old }
        ensures { self.new ≡ taken_back step (name_of op.now) self.old }
    {
        if let Some(name) = op.name() {
            self.step_back(name, step);
        }
    }

    fn step_back(&mut self, name: &Name, step: Step)
        requires { CanStepBack step name.now self.old }
        ensures { self.new ≡ stepped_back step name.now self.old }
    {
        match step {
            Step::Unchanged => {}
            Step::Added => self.remove(name),
            Step::Changed(undo) => self.undo(name, undo),
        }
    }

    fn undo(&mut self, name: &Name, undo: Undo)
        requires { CanUndoFound undo (map.get self.old name.now) }
        ensures { self.new ≡ put_back undo name.now self.old (map.get self.old name.now) }
    {
        if let Some(slot) = self.slots.get_mut(name) {
            undo_slot(slot, undo);
            return;
        }
        drop(undo);
    }

    // Takes a slot away.
    fn remove(&mut self, name: &Name)
        ensures { self.new ≡ map.remove self.old name.now }
    {
        self.slots.remove(name);
    }

    /// Gives up the slots of these operations that are empty.
    pub(crate) fn tidy(&mut self, ops: &[Op])
        ensures { shown_objects self.new ≡ shown_objects self.old }
    {
        for op in ops {
            if let Some(name) = op.name() {
                self.tidy_at(name);
            }
        }
    }

    fn tidy_at(&mut self, name: &Name)
        ensures { shown_objects self.new ≡ shown_objects self.old }
    {
        match self.get(name) {
            Some(_) => {}
            None => self.remove(name),
        }
    }
}

impl Duplicate for Slots {
    fn copy(&self) -> Result<Slots, NoMemory> {
        let slots = copy_named(self.alloc, &self.slots)?;
        Ok(Slots {
            alloc: self.alloc,
            slots,
        })
    }
}

// What an operation answers where its object is not there.
fn nothing_of(op: &Op) -> Item
    ensures { result ≡ item_at op.now None }
{
    if op.kind().changes() {
        Item::Unit
    } else {
        Item::Absent
    }
}
