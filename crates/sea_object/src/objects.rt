//! Objects under their names.
ghost use Rattle.std.specs.Prelude.{◌≡◌, option_map, IfOk, OnOk, OnErr};
ghost use Rattle.std.specs.Option.{option_copied};
ghost use Rattle.sea_object.specs.Answer.{after, answer};
ghost use Rattle.sea_object.specs.Held.{shown};

use crate::slots::Slots;
use crate::undo::Stop;
use crate::{Items, Object, Reply, Request};
use sea_base::{Duplicate, Name, NoMemory};
use std::alloc::Global;
use std::marker::Model;

/// Objects under their names, which contracts see as a finite map.
#[derive(Debug, Drop)]
pub struct Objects {
    alloc: Global,
    slots: Slots,
}

impl Model for Objects {
    ghost use Rattle.std.specs.FinMap as map;
    ghost use Rattle.std.specs.Coded.{coded_list, coded_ℕ};
    ghost use Rattle.sea_object.specs.Held.{shown_objects};
    ghost use Rattle.sea_object.specs.Objects.{ObjectMap, object_code};

    ghost Value = { ObjectMap };

    ghost coded = { map.code (coded_list coded_ℕ) object_code };

    ghost view = { λ o. shown_objects o.slots };
}

impl Objects {
    ghost use Rattle.std.specs.FinMap as map;

    /// No object. It takes no memory.
    pub fn new(alloc: Global) -> Objects
        ensures { result ≡ map.empty }
    {
        Objects {
            alloc,
            slots: Slots::new(alloc),
        }
    }

    /// The object of this name.
    pub fn get(&self, name: &Name) -> Option<&Object>
        ensures { option_map shown (option_copied result) ≡ map.get self.now name.now }
    {
        self.slots.get(name)
    }

    /// Does the operations of a request in order, and answers their items. Where one of them is
    /// refused, or memory runs out, all is as before.
    pub fn apply(&mut self, request: &Request) -> Result<Reply, NoMemory>
        ensures reply { IfOk result (λ reply. reply ≡ answer request.now self.old) }
        ensures after { OnOk result (self.new ≡ after request.now self.old) }
        ensures err { OnErr result (self.new ≡ self.old) }
    {
        let mut items = Items::new(self.alloc);
        match self.slots.run(1, request.ops(), &mut items) {
            Ok(()) => {
                self.slots.tidy(request.ops());
                Ok(Reply::Done(items))
            }
            Err(Stop::Refused { op, why }) => Ok(Reply::Refused { op, why }),
            Err(Stop::NoMemory) => Err(NoMemory),
        }
    }
}

impl Duplicate for Objects {
    fn copy(&self) -> Result<Objects, NoMemory> {
        Ok(Objects {
            alloc: self.alloc,
            slots: self.slots.copy()?,
        })
    }
}
