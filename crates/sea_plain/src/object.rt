//! One object.
ghost use Rattle.std.specs.Prelude.{◌≡◌, ◌<◌, ◌^◌, take, drop, IfOk, OnOk, OnErr};
ghost use Rattle.sea_plain.specs.Answer.{written};
ghost use Rattle.sea_plain.specs.Undo.{Fits, restored};

use crate::patch::{self, Saved};
use sea_base::{Data, Key, NoMemory};
use std::alloc::Global;
use std::collections::BTreeMap;
use std::marker::Model;

/// An object: its bytes, its attributes and its omap.
#[derive(Debug, Drop)]
pub struct Object {
    bytes: Vec<u8>,
    attributes: BTreeMap<Key, Data>,
    omap: BTreeMap<Key, Data>,
}

impl Model for Object {
    ghost use Rattle.std.specs.FinMap as map;
    ghost use Rattle.sea_plain.specs.Objects.{ObjectValue, object_code};

    ghost Value = { ObjectValue };

    ghost coded = { object_code };

    ghost view = { λ o. record { bytes = o.bytes.items; attributes = map.from_entries o.attributes.entries; omap = map.from_entries o.omap.entries } };
}

impl Object {
    ghost use Rattle.sea_plain.specs.Objects.{empty_object};

    /// An object without bytes, attributes and keys. It takes no memory.
    pub(crate) fn new(alloc: Global) -> Object
        ensures { result ≡ empty_object }
    {
        Object {
            bytes: Vec::new(alloc),
            attributes: BTreeMap::new(alloc),
            omap: BTreeMap::new(alloc),
        }
    }

    /// The object's bytes.
    pub fn bytes(&self) -> &[u8]
        ensures { result.now ≡ self.now.bytes }
    {
        self.bytes.as_slice()
    }

    /// Writes bytes from an offset on, and answers what takes this back. After want of memory the
    /// object is as before.
    pub(crate) fn write(&mut self, offset: usize, bytes: &[u8]) -> Result<Saved, NoMemory>
        requires { offset < 2 ^ 63 }
        ensures ok { OnOk result (self.new ≡ record self.old { bytes = written offset bytes.now self.old.bytes }) }
        ensures saved { IfOk result (λ saved. Fits saved self.new.bytes × (restored saved self.new.bytes ≡ self.old.bytes)) }
        ensures err { OnErr result (self.new ≡ self.old) }
    {
        patch::write_at(&mut self.bytes, offset, bytes)
    }

    /// Takes a write back.
    pub(crate) fn restore(&mut self, saved: &Saved)
        requires { Fits saved.now self.old.bytes }
        ensures { self.new ≡ record self.old { bytes = restored saved.now self.old.bytes } }
    {
        patch::restore(&mut self.bytes, saved);
    }
}
