//! A space in memory.
ghost use Rattle.std.specs.Prelude.{◌≡◌, ℕ, ◌+◌, ◌^◌, ◌<◌, ◌≤◌, ◌↔◌, [], ◌∷◌, ◌++◌, Some, None, Err, true, IsTrue, OnOk, OnErr, IfOk, IfErr};
ghost use Rattle.std.specs.Option.{option_map};
ghost use Rattle.std.specs.Result.{result_err};
ghost use Rattle.std.specs.BTreeMap as map;
ghost use Rattle.std.specs.BTreeSet as set;
ghost use Rattle.sea_base.specs.Calls.{Continues};
ghost use Rattle.sea_base.specs.Failures.{IsDue, IsFresh, counted, one_more};
ghost use Rattle.sea_base.specs.MapSpace.{IsBlank, seen_of, none_current, KeepsListed, seen_sound, map_frame, shows_nothing};
ghost use Rattle.sea_base.specs.Space.{IsKnown, IsSame, ReadsAtMost, Places, Amends, Gives};
ghost use Rattle.sea_base.specs.Splice.{IsSplice, spliced};

use crate::{Block, Delta, Failures, Laddr, NoMemory, Nths, Sequence, Space, SpaceFault};
use std::alloc::Global;
use std::collections::{BTreeMap, BTreeSet};

/// What was placed at one address.
#[derive(Debug, Drop)]
pub(crate) struct Placed {
    /// The block, or nothing where it was dropped.
    block: Option<Block>,
    /// The splices since it was placed whole.
    splices: Sequence<Delta>,
}

impl Placed {
    // Makes the block of the one that was there by a splice. After want of memory all is as before.
    fn amend(&mut self, delta: Delta, block: Block) -> Result<(), NoMemory>
        ensures ok { OnOk result (self.new ≡ record { block = Some block; splices = self.old.splices ++ delta ∷ [] }) }
        ensures err { OnErr result (self.new ≡ self.old) }
    {
        self.splices.push(delta)?;
        self.block = Some(block);
        Ok(())
    }
}

/// A space in memory, which nothing lies under: but for its own changes nothing is filled. It always
/// tells its bytes, and a transaction is always in it.
#[derive(Debug, Drop)]
pub struct MapSpace {
    alloc: Global,
    changes: BTreeMap<u64, Placed>,
    reads: BTreeSet<u64>,
    next: u64,
    gets: Failures,
    faults: u64,
}

impl MapSpace {
    /// A space in which nothing is filled. The gets listed in `fails`, counted from 1, will fail. It
    /// takes no memory.
    pub fn new(alloc: Global, fails: Nths) -> MapSpace
        ensures blank { IsBlank (⟦<MapSpace as Space>⟧.seen result) }
        ensures next { (⟦<MapSpace as Space>⟧.seen result).next ≡ 2 }
        ensures faults { ⟦<MapSpace as Space>⟧.faults result ≡ 0 }
        ensures tells { IsTrue (⟦<MapSpace as Space>⟧.tells result) }
        ensures ready { IsTrue (⟦<MapSpace as Space>⟧.ready result) }
        ensures fails { IsFresh fails result.gets }
    {
        MapSpace {
            alloc,
            changes: BTreeMap::new(alloc),
            reads: BTreeSet::new(alloc),
            next: 2,
            gets: Failures::new(fails),
            faults: 0,
        }
    }

    /// How many gets have failed. It stands still at 2^64 - 1.
    pub fn faults(&self) -> u64
        ensures { result ≡ ⟦<MapSpace as Space>⟧.faults self.now }
    {
        self.faults
    }

    // Reads an address. After want of memory nothing is noted.
    fn read(&mut self, at: Laddr) -> Result<Option<Block>, NoMemory>
        ensures found { IfOk result (λ found. found ≡ (seen_of self.old).view at.0) }
        ensures known { OnOk result (IsKnown (seen_of self.new) at.0) }
        ensures reads { ReadsAtMost at.0 (seen_of self.old) (seen_of self.new) }
        ensures err { OnErr result (set.IsUnchanged self.old.reads self.new.reads) }
        ensures same { self.new ≡ record self.old { reads = self.new.reads } }
    {
        let Some(placed) = self.changes.get(&at.0) else {
            self.reads.insert(at.0)?;
            return Ok(None);
        };
        match &placed.block {
            Some(block) => Ok(Some(block.share()?)),
            None => Ok(None),
        }
    }

    // Places a block, or leaves nothing. After want of memory all is as before.
    fn place(&mut self, at: Laddr, block: Option<Block>) -> Result<(), NoMemory>
        ensures placed { OnOk result (Places at.0 block (seen_of self.old) (seen_of self.new)) }
        ensures err { OnErr result (map.IsUnchanged self.old.changes self.new.changes) }
        ensures same { self.new ≡ record self.old { changes = self.new.changes } }
    {
        let splices = Sequence::new(self.alloc);
        self.changes.insert(at.0, Placed { block, splices })?;
        Ok(())
    }
}

impl Space for MapSpace {
    ghost seen = { seen_of };

    ghost current = { none_current };

    ghost faults = { λ space. space.faults };

    ghost tells = { λ space. true };

    ghost ready = { λ space. true };

    ghost keeps = { KeepsListed };

    ghost sound = { seen_sound };

    ghost frame = { map_frame };

    ghost shows = { λ space _. shows_nothing space };

    /// Answers `DeviceFault` exactly where it is listed; then nothing is noted.
    fn get(&mut self, at: Laddr) -> Result<Option<Block>, SpaceFault>
        ensures answer { IfOk result (λ found. found ≡ (seen_of self.new).view at.0) }
        ensures known { OnOk result (IsKnown (seen_of self.new) at.0) }
        ensures reads { ReadsAtMost at.0 (seen_of self.old) (seen_of self.new) }
        ensures call { Continues seen_of none_current (λ space. space.faults) (λ space. true) (λ space. true) KeepsListed self.old self.new (result_err result) }
        ensures exact { (result ≡ Err SpaceFault.DeviceFault) ↔ IsDue self.old.gets }
        ensures struck { IsDue self.old.gets → self.new.faults ≡ one_more self.old.faults }
        ensures counted { self.new.gets ≡ counted self.old.gets }
        ensures err { OnErr result (set.IsUnchanged self.old.reads self.new.reads) }
        ensures same { (self.new.changes ≡ self.old.changes) × (self.new.next ≡ self.old.next) }
    {
        if self.gets.strikes() {
            self.faults = self.faults.saturating_add(1);
            return Err(SpaceFault::DeviceFault);
        }
        Ok(self.read(at)?)
    }

    /// After want of memory all is as before.
    fn put(&mut self, at: Laddr, block: Block) -> Result<(), SpaceFault>
        ensures placed { OnOk result (Places at.0 (Some block) (seen_of self.old) (seen_of self.new)) }
        ensures memory { IfErr result (λ fault. fault ≡ SpaceFault.NoMemory) }
        ensures err { OnErr result (map.IsUnchanged self.old.changes self.new.changes) }
        ensures others { self.new ≡ record self.old { changes = self.new.changes } }
    {
        Ok(self.place(at, Some(block))?)
    }

    /// After want of memory all is as before.
    fn amend(&mut self, at: Laddr, delta: Delta, block: Block) -> Result<(), SpaceFault>
        requires splice { option_map (spliced delta.cut delta.gone delta.put) ((seen_of self.old).view at.0) ≡ Some block }
        ensures amended { OnOk result (Amends at.0 delta block (seen_of self.old) (seen_of self.new)) }
        ensures memory { IfErr result (λ fault. fault ≡ SpaceFault.NoMemory) }
        ensures same { OnErr result (IsSame (seen_of self.old) (seen_of self.new)) }
        ensures others { self.new ≡ record self.old { changes = self.new.changes } }
    {
        // A splice is made of a block that stands there, and nothing stands but what was placed.
        match self.changes.get_mut(&at.0) {
            Some(placed) => Ok(placed.amend(delta, block)?),
            None => Ok(()),
        }
    }

    /// After want of memory all is as before.
    fn drop_at(&mut self, at: Laddr) -> Result<(), SpaceFault>
        ensures gone { OnOk result (Places at.0 None (seen_of self.old) (seen_of self.new)) }
        ensures memory { IfErr result (λ fault. fault ≡ SpaceFault.NoMemory) }
        ensures err { OnErr result (map.IsUnchanged self.old.changes self.new.changes) }
        ensures others { self.new ≡ record self.old { changes = self.new.changes } }
    {
        Ok(self.place(at, None)?)
    }

    /// It takes no memory, and never fails.
    fn alloc(&mut self, count: u64) -> Result<Laddr, SpaceFault>
        requires count { (1 ≤ count) × (count ≤ 4098) }
        requires room { self.old.next < 2 ^ 62 + 2 ^ 47 }
        ensures first { result ≡ Ok (record { 0 = self.old.next }) }
        ensures same { self.new ≡ record self.old { next = self.old.next + count } }
    {
        let first = self.next;
        self.next += count;
        Ok(Laddr(first))
    }
}
