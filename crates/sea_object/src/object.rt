//! One object.
ghost use Rattle.std.specs.Prelude.{◌≡◌, ◌≤◌, ◌+◌, length, take, drop};
ghost use Rattle.std.specs.Prelude.{Some, None, IfOk, IfErr, OnOk, OnErr};
ghost use Rattle.std.specs.FinMap as map;
ghost use Rattle.sea_object.specs.Answer.{changed, overfills, told, value_item};
ghost use Rattle.sea_object.specs.Answer.{resized, with_bytes, written};
ghost use Rattle.sea_object.specs.Held.{new_held, shown, values_in};
ghost use Rattle.sea_object.specs.Op.{IsWithinLimits};
ghost use Rattle.sea_object.specs.Undo.{CanUndo, CanUndoSlot, MayHalt, undone, undone_slot};

use crate::content::Content;
use crate::undo::{Halt, Undo};
use crate::values::Values;
use crate::{Item, Op, Why, patch};
use sea_base::{Data, Duplicate, Key, NoMemory};
use std::alloc::Global;
use std::marker::Model;

/// The attributes of an object at most.
pub const ATTRIBUTES: usize = 64;

/// The keys of an omap at most.
pub const OMAP_KEYS: usize = 10_000;

/// An object: its bytes, its attributes and its omap.
#[derive(Debug, Drop)]
pub struct Object {
    alloc: Global,
    content: Content,
    attributes: Values,
    omap: Values,
}

impl Model for Object {
    ghost use Rattle.sea_object.specs.Held.{Held, held_code};

    ghost Value = { Held };

    ghost coded = { held_code };

    ghost view = { λ o. record { stored = o.content; attributes = o.attributes; omap = o.omap } };
}

impl Object {
    /// An object without bytes, attributes and keys. It takes no memory.
    pub(crate) fn new(alloc: Global) -> Object
        ensures { result ≡ new_held }
    {
        Object {
            alloc,
            content: Content::new(alloc),
            attributes: Values::new(alloc),
            omap: Values::new(alloc),
        }
    }

    /// The object's bytes, of which there are 16,777,216 at most.
    pub fn bytes(&self) -> &[u8]
        ensures bytes { result.now ≡ (shown self.now).bytes }
        ensures few { length result.now ≤ 16777216 }
    {
        self.content.bytes()
    }

    /// The object's attributes.
    pub fn attributes(&self) -> &Values
        ensures { result.now ≡ self.now.attributes }
    {
        &self.attributes
    }

    /// The object's omap.
    pub fn omap(&self) -> &Values
        ensures { result.now ≡ self.now.omap }
    {
        &self.omap
    }

    /// What an operation answers of this object.
    pub(crate) fn item(&self, op: &Op) -> Result<Item, NoMemory>
        ensures { IfOk result (λ item. item ≡ told op.now (shown self.now)) }
    {
        match op {
            Op::OmapRmKeyRange {
                from,
                to,
                bound,
                ..
            } => {
                let keys = self.omap.keys_between(from, to, *bound as usize)?;
                Ok(Item::Number(keys.items().len() as u32))
            }
            Op::Read { offset, length, .. } => self.read(*offset as usize, *length as usize),
            Op::Stat { .. } => Ok(Item::Number(self.bytes().len() as u32)),
            Op::GetAttr { key, .. } => value_of(&self.attributes, key),
            Op::GetAttrs { .. } => Ok(Item::Pairs(self.attributes.all()?)),
            Op::OmapGet { key, .. } => value_of(&self.omap, key),
            Op::OmapList { limit, after, .. } => {
                Ok(Item::Pairs(self.omap.first(*limit as usize, after.as_ref())?))
            }
            _ => Ok(Item::Unit),
        }
    }

    fn read(&self, offset: usize, length: usize) -> Result<Item, NoMemory>
        ensures { IfOk result
            (λ item. item ≡ Item.Bytes (take length (drop offset (shown self.now).bytes))) }
    {
        let part = patch::part(self.bytes(), offset, length);
        Ok(Item::Bytes(Data::new(self.alloc, part)?))
    }

    /// Has an operation's effect on this object, and answers what takes it back. Where the
    /// operation comes to a halt all is as before.
    pub(crate) fn change(&mut self, op: &Op) -> Result<Undo, Halt>
        requires { IsWithinLimits op.now }
        ensures fits { OnOk result (overfills op.now (shown self.old) ≡ None) }
        ensures ok { OnOk result (shown self.new ≡ changed op.now (shown self.old)) }
        ensures can { IfOk result (λ undo. CanUndoSlot undo (Some self.new)) }
        ensures undo { IfOk result (λ undo. undone_slot undo (Some self.new) ≡ Some self.old) }
        ensures err { OnErr result (self.new ≡ self.old) }
        ensures refused { IfErr result (MayHalt (overfills op.now (shown self.old))) }
    {
        match op {
            Op::Write { offset, bytes, .. } => Ok(self.write(*offset as usize, bytes.bytes())?),
            Op::Zero { offset, length, .. } => {
                let zeros = patch::zeros(self.alloc, *length as usize)?;
                Ok(self.write(*offset as usize, zeros.as_slice())?)
            }
            Op::Truncate { size, .. } => Ok(self.resize(*size as usize)?),
            Op::SetAttr { key, value, .. } => {
                let pair = [(key.copy()?, value.copy()?)];
                let former = self.attributes.put_all(&pair, ATTRIBUTES, Why::AttrFull)?;
                Ok(Undo::Attributes(former))
            }
            Op::RmAttr { key, .. } => {
                let former = self.attributes.take_all(&[key.copy()?])?;
                Ok(Undo::Attributes(former))
            }
            Op::RmAttrs { .. } => Ok(Undo::Attributes(self.attributes.clear())),
            Op::OmapSetKeys { pairs, .. } => {
                let former = self.omap.put_all(pairs.items(), OMAP_KEYS, Why::OmapFull)?;
                Ok(Undo::Omap(former))
            }
            Op::OmapRmKeys { keys, .. } => Ok(Undo::Omap(self.omap.take_all(keys.items())?)),
            Op::OmapRmKeyRange {
                from,
                to,
                bound,
                ..
            } => {
                let keys = self.omap.keys_between(from, to, *bound as usize)?;
                Ok(Undo::Omap(self.omap.take_all(keys.items())?))
            }
            Op::OmapClear { .. } => Ok(Undo::Omap(self.omap.clear())),
            _ => Ok(Undo::Nothing),
        }
    }

    fn write(&mut self, offset: usize, bytes: &[u8]) -> Result<Undo, NoMemory>
        requires { offset + length bytes.now ≤ 16777216 }
        ensures ok { OnOk result
            (shown self.new ≡
            with_bytes (written offset bytes.now (shown self.old).bytes) (shown self.old)) }
        ensures can { IfOk result (λ undo. CanUndoSlot undo (Some self.new)) }
        ensures undo { IfOk result (λ undo. undone_slot undo (Some self.new) ≡ Some self.old) }
        ensures err { OnErr result (self.new ≡ self.old) }
    {
        Ok(Undo::Content(self.content.write(offset, bytes)?))
    }

    fn resize(&mut self, size: usize) -> Result<Undo, NoMemory>
        requires { size ≤ 16777216 }
        ensures ok { OnOk result
            (shown self.new ≡ with_bytes (resized size (shown self.old).bytes) (shown self.old)) }
        ensures can { IfOk result (λ undo. CanUndoSlot undo (Some self.new)) }
        ensures undo { IfOk result (λ undo. undone_slot undo (Some self.new) ≡ Some self.old) }
        ensures err { OnErr result (self.new ≡ self.old) }
    {
        Ok(Undo::Content(self.content.resize(size)?))
    }

    /// Takes an operation back.
    pub(crate) fn undo(&mut self, undo: Undo)
        requires { CanUndo undo self.old }
        ensures { self.new ≡ undone undo self.old }
    {
        match undo {
            Undo::Content(earlier) => self.content.restore(&earlier),
            Undo::Attributes(former) => self.attributes.restore(former),
            Undo::Omap(former) => self.omap.restore(former),
            Undo::Nothing | Undo::Slot(_) => {}
        }
    }

    /// Gives up what would take an operation back.
    pub(crate) fn settle(&mut self, undo: Undo)
        ensures { shown self.new ≡ shown self.old }
    {
        match undo {
            Undo::Attributes(former) => self.attributes.settle(former),
            Undo::Omap(former) => self.omap.settle(former),
            Undo::Nothing | Undo::Slot(_) | Undo::Content(_) => {}
        }
    }
}

impl Duplicate for Object {
    fn copy(&self) -> Result<Object, NoMemory> {
        Ok(Object {
            alloc: self.alloc,
            content: self.content.copy()?,
            attributes: self.attributes.copy()?,
            omap: self.omap.copy()?,
        })
    }
}

fn value_of(values: &Values, key: &Key) -> Result<Item, NoMemory>
    ensures { IfOk result (λ item. item ≡ value_item (map.get (values_in values.now) key.now)) }
{
    match values.get(key) {
        Some(value) => Ok(Item::Bytes(value.copy()?)),
        None => Ok(Item::Absent),
    }
}
