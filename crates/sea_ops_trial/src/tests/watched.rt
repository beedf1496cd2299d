//! A space whose calls are noted.
ghost use Rattle.std.specs.Prelude.{◌≡◌, ◌≤◌, true, IsTrue};
ghost use Rattle.std.proofs.Common.{refl, ◌∙◌};
ghost use Rattle.sea_base.specs.MapSpace.{seen_of, none_current, KeepsListed, seen_sound, shows_nothing};

use sea_base::{Addresses, Block, Delta, Laddr, MapSpace, Nths, Space, SpaceFault};
use std::alloc::Global;

// A space in memory that notes the addresses of its gets, and those that it changes.
#[derive(Drop)]
pub struct WatchedSpace {
    space: MapSpace,
    gets: Addresses,
    changed: Addresses,
    is_whole: bool,
}

impl WatchedSpace {
    // An empty space. The gets listed in `fails`, counted from 1, will fail.
    pub fn new(alloc: Global, fails: Nths) -> WatchedSpace
        ensures ready { IsTrue (⟦<WatchedSpace as Space>⟧.ready result) }
        ensures low { (⟦<WatchedSpace as Space>⟧.seen result).next ≤ 2 }
    {
        WatchedSpace {
            space: MapSpace::new(alloc, fails),
            gets: Addresses::new(alloc),
            changed: Addresses::new(alloc),
            is_whole: true,
        }
    }

    pub fn gets(&self) -> &[Laddr] {
        self.gets.items()
    }

    pub fn changed(&self) -> &[Laddr] {
        self.changed.items()
    }

    // Whether all is noted: memory sufficed for it.
    pub fn is_whole(&self) -> bool {
        self.is_whole
    }

    fn note_change(&mut self, at: Laddr)
        ensures { self.new.space ≡ self.old.space }
    {
        if self.changed.push(at).is_err() {
            self.is_whole = false;
        }
    }
}

impl Space for WatchedSpace {
    ghost seen = { λ watched. seen_of watched.space };

    ghost current = { λ watched. none_current watched.space };

    ghost faults = { λ watched. ⟦<MapSpace as Space>⟧.faults watched.space };

    ghost tells = { λ watched. true };

    ghost ready = { λ watched. true };

    ghost keeps = { λ old new. KeepsListed old.space new.space };

    ghost sound = { λ watched. seen_sound watched.space };

    ghost frame = { record { reflexive = λ s. refl; transitive = λ a b c first later. later ∙ first; shared = λ a b kept at. refl } };

    ghost shows = { λ watched _. shows_nothing watched.space };

    fn get(&mut self, at: Laddr) -> Result<Option<Block>, SpaceFault> {
        if self.gets.push(at).is_err() {
            self.is_whole = false;
        }
        self.space.get(at)
    }

    fn put(&mut self, at: Laddr, block: Block) -> Result<(), SpaceFault> {
        self.note_change(at);
        self.space.put(at, block)
    }

    fn amend(&mut self, at: Laddr, delta: Delta, block: Block) -> Result<(), SpaceFault> {
        self.note_change(at);
        self.space.amend(at, delta, block)
    }

    fn drop_at(&mut self, at: Laddr) -> Result<(), SpaceFault> {
        self.note_change(at);
        self.space.drop_at(at)
    }

    fn alloc(&mut self, count: u64) -> Result<Laddr, SpaceFault> {
        self.space.alloc(count)
    }
}
