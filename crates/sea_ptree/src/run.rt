//! Slots for some keys.
ghost use Rattle.std.specs.Prelude.{◌≡◌, ◌↔◌, ℕ, [], ◌∷◌, ◌++◌, IsTrue, Option, OnOk, OnErr};
ghost use Rattle.std.specs.Prelude.{length};
ghost use Rattle.sea_ptree.specs.Run.{IsRun, Rises};

use sea_base::{Duplicate, NoMemory, Slot};
use std::alloc::Global;
use std::marker::Model;

/// How many keys a run has at most.
pub const MOST_KEYS: usize = 64;

/// At most 64 keys, which rise strictly, each with a slot or without one. Contracts see the list.
#[derive(Debug, Drop)]
pub struct Run {
    items: Vec<(u64, Option<Slot>)>,
}

impl Model for Run {
    ghost use Rattle.sea_ptree.specs.Run.{Update, IsRun};
    ghost use Rattle.std.specs.Prelude.{List};

    ghost Value = { List Update };

    ghost view = { λ r. r.items.items };

    ghost invariant = { λ r. IsRun r.items.items };
}

impl Run {
    /// A run without keys. It takes no memory.
    pub fn new(alloc: Global) -> Run
        ensures { result ≡ [] }
    {
        Run {
            items: Vec::new(alloc),
        }
    }

    /// Appends a key with its slot, or without one.
    pub fn push(&mut self, item: (u64, Option<Slot>)) -> Result<(), NoMemory>
        requires { IsRun (self.old ++ item ∷ []) }
        ensures ok { OnOk result (self.new ≡ self.old ++ item ∷ []) }
        ensures err { OnErr result (self.new ≡ self.old) }
    {
        self.items.push(item)?;
        Ok(())
    }

    /// The keys with their slots, in order.
    pub fn items(&self) -> &[(u64, Option<Slot>)]
        ensures items { result.now ≡ self.now }
        ensures run { IsRun self.now }
    {
        self.items.as_slice()
    }

    /// Whether a key is above those of the run.
    pub fn is_below(&self, key: u64) -> bool
        ensures { (slot : Option Slot) → IsTrue result ↔ Rises (self.now ++ (key, slot) ∷ []) }
    {
        match self.items.last() {
            Some(last) => last.0 < key,
            None => true,
        }
    }
}

impl Duplicate for Run {
    fn copy(&self) -> Result<Run, NoMemory> {
        let items = Vec::from_slice(*self.items.allocator(), self.items.as_slice())?;
        Ok(Run { items })
    }
}
