//! Objects under their names.
ghost use Rattle.std.specs.Prelude.{◌≡◌, ◌<◌, ◌^◌, ◌++◌, IfOk, OnOk, OnErr};
ghost use Rattle.std.specs.Option.{option_copied};
ghost use Rattle.sea_plain.specs.Answer.{answer, after, effect, item, items, laid, read_item, written};
ghost use Rattle.sea_plain.specs.Undo.{CanUndo, undone};
ghost use Rattle.sea_plain.specs.Op.{name_of};

use crate::patch::{Saved, part};
use crate::{Item, Items, Object, Op, Reply, Request};
use sea_base::{Data, Duplicate, Name, NoMemory};
use std::alloc::Global;
use std::collections::BTreeMap;
use std::marker::Model;

/// Objects under their names, which contracts see as a finite map.
#[derive(Debug, Drop)]
pub struct Objects {
    alloc: Global,
    objects: BTreeMap<Name, Object>,
}

/// What an operation did to its object, as far as it takes to take it back.
#[derive(Debug, Drop)]
enum Undo {
    /// The operation changed nothing.
    Nothing,
    /// It made the object.
    Made,
    /// It wrote into the object.
    Written(Saved),
}

impl Model for Objects {
    ghost use Rattle.std.specs.FinMap as map;
    ghost use Rattle.std.specs.Coded.{coded_list, coded_ℕ};
    ghost use Rattle.sea_plain.specs.Objects.{ObjectMap, object_code};

    ghost Value = { ObjectMap };

    ghost coded = { map.code (coded_list coded_ℕ) object_code };

    ghost view = { λ o. map.from_entries o.objects.entries };
}

impl Objects {
    ghost use Rattle.std.specs.FinMap as map;
    ghost use Rattle.sea_plain.specs.Objects.{object_at, with_bytes};

    /// No object. It takes no memory.
    pub fn new(alloc: Global) -> Objects
        ensures { result ≡ map.empty }
    {
        Objects {
            alloc,
            objects: BTreeMap::new(alloc),
        }
    }

    /// The object of this name.
    pub fn get(&self, name: &Name) -> Option<&Object>
        ensures { option_copied result ≡ map.get self.now name.now }
    {
        self.objects.get(name)
    }

    /// Does the operations of a request in order, and answers their items. After want of memory
    /// all is as before.
    pub fn apply(&mut self, request: &Request) -> Result<Reply, NoMemory>
        ensures reply { IfOk result (λ reply. reply ≡ answer request.now self.old) }
        ensures after { OnOk result (self.new ≡ after request.now self.old) }
        ensures err { OnErr result (self.new ≡ self.old) }
    {
        let mut answers = Items::new(self.alloc);
        self.run(request.ops(), &mut answers)?;
        Ok(Reply::Done(answers))
    }

    /// Lays bytes over the object of this name from an offset on. The object is made where there is
    /// none, also for no bytes.
    pub fn lay(&mut self, name: &Name, offset: u32, bytes: &[u8]) -> Result<(), NoMemory>
        ensures ok { OnOk result (self.new ≡ map.insert self.old name.now (record (object_at self.old name.now) { bytes = laid offset bytes.now (object_at self.old name.now).bytes })) }
        ensures err { OnErr result (self.new ≡ self.old) }
    {
        if bytes.is_empty() {
            return self.make(name);
        }
        self.write(name, offset as usize, bytes)?;
        Ok(())
    }

    // Makes the object of this name where there is none.
    fn make(&mut self, name: &Name) -> Result<(), NoMemory>
        ensures ok { OnOk result (self.new ≡ map.insert self.old name.now (object_at self.old name.now)) }
        ensures err { OnErr result (self.new ≡ self.old) }
    {
        if self.objects.contains_key(name) {
            return Ok(());
        }
        self.objects.insert(name.copy()?, Object::new(self.alloc))?;
        Ok(())
    }

    // Does operations in order, and appends their items. After want of memory each one is taken
    // back. A request has few, so the calls do not nest deep.
    fn run(&mut self, ops: &[Op], answers: &mut Items) -> Result<(), NoMemory>
        ensures items { OnOk result (answers.new ≡ answers.old ++ items ops.now self.old) }
        ensures after { OnOk result (self.new ≡ after ops.now self.old) }
        ensures err { OnErr result (self.new ≡ self.old) }
    {
        let Some((op, rest)) = ops.split_first() else {
            return Ok(());
        };
        answers.push(self.item(op)?)?;
        let undo = self.change(op)?;
        let done = self.run(rest, answers);
        if done.is_err() {
            self.undo(op.name(), undo);
        }
        done
    }

    // What an operation answers.
    fn item(&self, op: &Op) -> Result<Item, NoMemory>
        ensures { IfOk result (λ made. made ≡ item op.now self.now) }
    {
        match op {
            Op::Write { .. } => Ok(Item::Unit),
            Op::Read {
                name,
                offset,
                length,
            } => self.read(name, *offset as usize, *length as usize),
        }
    }

    fn read(&self, name: &Name, offset: usize, length: usize) -> Result<Item, NoMemory>
        ensures { IfOk result (λ made. made ≡ read_item offset length (map.get self.now name.now)) }
    {
        let Some(object) = self.get(name) else {
            return Ok(Item::Absent);
        };
        let bytes = Data::new(self.alloc, part(object.bytes(), offset, length))?;
        Ok(Item::Bytes(bytes))
    }

    // Has an operation's effect, and answers what takes it back.
    fn change(&mut self, op: &Op) -> Result<Undo, NoMemory>
        ensures ok { OnOk result (self.new ≡ effect op.now self.old) }
        ensures undo { IfOk result (λ undo. CanUndo undo (name_of op.now) self.new × (undone undo (name_of op.now) self.new ≡ self.old)) }
        ensures err { OnErr result (self.new ≡ self.old) }
    {
        match op {
            Op::Write {
                name,
                offset,
                bytes,
            } => self.write(name, *offset as usize, bytes.bytes()),
            Op::Read { .. } => Ok(Undo::Nothing),
        }
    }

    fn write(&mut self, name: &Name, offset: usize, bytes: &[u8]) -> Result<Undo, NoMemory>
        requires { offset < 2 ^ 63 }
        ensures ok { OnOk result (self.new ≡ with_bytes self.old name.now (written offset bytes.now (object_at self.old name.now).bytes)) }
        ensures undo { IfOk result (λ undo. CanUndo undo name.now self.new × (undone undo name.now self.new ≡ self.old)) }
        ensures err { OnErr result (self.new ≡ self.old) }
    {
        if let Some(object) = self.objects.get_mut(name) {
            return Ok(Undo::Written(object.write(offset, bytes)?));
        }
        let mut object = Object::new(self.alloc);
        object.write(offset, bytes)?;
        self.objects.insert(name.copy()?, object)?;
        Ok(Undo::Made)
    }

    // Takes an operation on the object of this name back.
    fn undo(&mut self, name: &Name, undo: Undo)
        requires { CanUndo undo name.now self.old }
        ensures { self.new ≡ undone undo name.now self.old }
    {
        match undo {
            Undo::Nothing => {}
            Undo::Made => {
                self.objects.remove(name);
            }
            Undo::Written(saved) => {
                if let Some(object) = self.objects.get_mut(name) {
                    object.restore(&saved);
                }
            }
        }
    }
}
