//! The device in memory, which shows what a crash may leave.
ghost use Rattle.std.specs.Prelude.{◌≡◌, ◌⊎◌, ◌↔◌, ℕ, ◌+◌, ◌*◌, ◌<◌, ◌≤◌, List, Some, true, IsTrue, length, slice_range, replicate, IfOk, OnOk, OnErr, IfErr, IsErr};
ghost use Rattle.std.specs.List.{All};
ghost use Rattle.sea_device.specs.Device.{IsWholeBlocks, overwritten, Torn, Follows, Reaches, Elapses, HasCause};
ghost use Rattle.sea_base.specs.Failures.{CountsFault, IsDue, counted};
ghost use Rattle.sea_device.specs.Laws.{whole_law, left_image, now_law, counts_law, only_law};
ghost use Rattle.sea_device.specs.Moments.{Wrote, Synced};
ghost use Rattle.sea_device.specs.Past.{now_of, bytes_of, stable_of, MayLeaveOf, MayLeaveNow, LeftSinceOf, IsUnsyncedOf, TakesSync, TakesWrite, IsNew, GoesOn};

use crate::call_log::{CallLog, Room};
use crate::failures::fault;
use crate::overwrite::overwrite;
use crate::{Device, Failed};
use sea_base::{BLOCK_BYTES, Block, Failures, NoMemory, Nths, Paddr, Sequence};
use std::alloc::Global;

/// Which reads, writes and syncs will fail, counted from 1.
#[derive(Debug, Drop)]
pub struct Fails {
    pub reads: Nths,
    pub writes: Nths,
    pub syncs: Nths,
}

/// Blocks, each with its place.
pub type Chosen = Sequence<(Paddr, Block)>;

/// A device in memory that tells its bytes, and what a crash may leave.
#[derive(Debug, Drop)]
pub struct MemDevice {
    blocks: u32,
    bytes: Vec<u8>,
    past: CallLog,
    reads: Failures,
    writes: Failures,
    syncs: Failures,
    faults: u64,
    ghost bytes_size: { length bytes.items ≡ 4096 * blocks },
    ghost size: { length past.start.items ≡ 4096 * blocks },
    ghost current: { bytes.items ≡ bytes_of past (now_of past) },
}

impl Fails {
    ghost use Rattle.sea_device.specs.Memory.{no_fails};

    /// No call will fail.
    pub fn none(alloc: Global) -> Fails
        ensures { result ≡ no_fails }
    {
        Fails {
            reads: Nths::new(alloc),
            writes: Nths::new(alloc),
            syncs: Nths::new(alloc),
        }
    }
}

impl MemDevice {
    ghost use Rattle.sea_device.specs.Memory.{no_fails, IsMade, laid};

    /// A device of zeros. It takes its whole memory here: its blocks, and a log of so many writes
    /// and syncs, with so many written bytes.
    pub fn new(
        alloc: Global,
        blocks: u32,
        calls: u32,
        bytes: u64,
        fails: Fails,
    ) -> Result<MemDevice, NoMemory>
        ensures { IfOk result (IsMade blocks (replicate (4096 * blocks) 0)
            (record { calls = calls; bytes = bytes }) fails) }
    {
        let zeros = vec![in alloc; 0; BLOCK_BYTES * blocks as usize]?;
        MemDevice::holding(alloc, blocks, zeros, Room { calls, bytes }, fails)
    }

    /// A device that holds these bytes.
    fn holding(
        alloc: Global,
        blocks: u32,
        bytes: Vec<u8>,
        room: Room,
        fails: Fails,
    ) -> Result<MemDevice, NoMemory>
        requires { length bytes.items ≡ 4096 * blocks }
        ensures { IfOk result (IsMade blocks bytes.items room fails) }
    {
        let past = CallLog::new(alloc, bytes.to_vec(alloc)?, room)?;
        let Fails {
            reads,
            writes,
            syncs,
        } = fails;
        Ok(MemDevice {
            blocks,
            bytes,
            past,
            reads: Failures::new(reads),
            writes: Failures::new(writes),
            syncs: Failures::new(syncs),
            faults: 0,
        })
    }

    /// Makes the bytes now the one image that a crash may leave, and begins a new log, with its
    /// counts at 0.
    pub fn refit(
        mut self,
        calls: u32,
        bytes: u64,
        fails: Fails,
    ) -> Result<MemDevice, (MemDevice, NoMemory)>
        ensures ok { IfOk result (IsMade self.blocks self.bytes.items
            (record { calls = calls; bytes = bytes }) fails) }
        ensures err { IfErr result (λ e. e.0 ≡ self) }
    {
        match self.settled(Room { calls, bytes }) {
            Ok(past) => {
                self.past = past;
                let Fails {
                    reads,
                    writes,
                    syncs,
                } = fails;
                self.reads = Failures::new(reads);
                self.writes = Failures::new(writes);
                self.syncs = Failures::new(syncs);
                self.faults = 0;
                Ok(self)
            }
            Err(error) => Err((self, error)),
        }
    }

    /// A log that begins with the bytes now.
    fn settled(&self, room: Room) -> Result<CallLog, NoMemory>
        ensures { IfOk result (IsNew self.now.bytes.items room) }
    {
        let alloc = *self.bytes.allocator();
        CallLog::new(alloc, self.bytes.to_vec(alloc)?, room)
    }

    /// A fresh device with the image of a crash at a moment: what was stable then, with the chosen
    /// blocks laid over it. It has the same room, and no call of it will fail.
    pub fn crash(&self, moment: u64, chosen: &Chosen) -> Result<MemDevice, NoMemory>
        requires moment { moment ≤ now_of self.now.past }
        requires unsynced { All (λ x. IsUnsyncedOf self.now.past moment x.0.0) chosen.now }
        ensures made { IfOk result (IsMade self.now.blocks
            (laid chosen.now (stable_of self.now.past moment)) self.now.past.room no_fails) }
        ensures allowed { IfOk result (λ made. (t : ℕ) → t ≤ moment
            → LeftSinceOf self.now.past t made.bytes.items) }
    {
        let alloc = *self.bytes.allocator();
        let mut bytes = self.past.stable(moment as usize)?;
        for (at, block) in chosen.items() {
            self.lay(moment, &mut bytes, *at, block);
        }
        MemDevice::holding(
            alloc,
            self.blocks,
            bytes,
            self.past.room(),
            Fails::none(alloc),
        )
    }

    /// Whether a block was written and not synced at a moment.
    pub fn is_unsynced(&self, moment: u64, at: Paddr) -> bool
        requires { moment ≤ now_of self.now.past }
        ensures { IsTrue result ↔ IsUnsyncedOf self.now.past moment at.0 }
    {
        self.past.is_unsynced(moment as usize, at.0)
    }

    /// Lays an unsynced block over what a crash may leave.
    fn lay(&self, moment: u64, image: &mut [u8], at: Paddr, block: &Block)
        requires unsynced { IsUnsyncedOf self.now.past moment at.0 }
        requires image { MayLeaveOf self.now.past moment image.old }
        ensures laid { image.new ≡ overwritten (4096 * at.0) block.now image.old }
        ensures image { MayLeaveOf self.now.past moment image.new }
    {
        overwrite(image, BLOCK_BYTES * at.0 as usize, block.bytes());
    }

    /// The bytes now.
    pub fn bytes(&self) -> &[u8]
        ensures { ⟦<MemDevice as Device>⟧.contents self.now ≡ Some result.now }
    {
        &self.bytes
    }

    /// How many writes and syncs there were that didn't fail.
    pub fn clock(&self) -> u64
        ensures { result ≡ ⟦<MemDevice as Device>⟧.clock self.now }
    {
        self.past.count() as u64
    }

    /// How many calls have failed. It stands still at 2^64 - 1.
    pub fn faults(&self) -> u64
        ensures { result ≡ ⟦<MemDevice as Device>⟧.faults self.now }
    {
        self.faults
    }
}

impl Device for MemDevice {
    ghost size = { λ d. d.blocks };

    ghost contents = { λ d. Some d.bytes.items };

    ghost tells_images = { λ d. true };

    ghost may_leave = { λ d. MayLeaveNow d.past };

    ghost clock = { λ d. now_of d.past };

    ghost left_since = { λ d. LeftSinceOf d.past };

    ghost faults = { λ d. d.faults };

    ghost whole = { λ d b is. whole_law d.blocks d.past d.bytes.items b d.size d.current is };

    ghost images_whole = { λ d c left. left_image d.blocks d.past d.size (now_of d.past) c left };

    ghost now_among = { λ d b told is. now_law d.blocks d.past d.bytes.items b d.size d.current is };

    ghost counts_now = { λ d t c le left. counts_law d.past t c le left };

    ghost only_now = { λ d c left. only_law d.past c left };

    fn blocks(&self) -> u32 {
        self.blocks
    }

    /// Fails exactly where it is listed.
    fn read(&mut self, at: Paddr, into: &mut [u8]) -> Result<(), Failed>
        requires whole { IsWholeBlocks (length into.old) }
        requires within { 4096 * at.0 + length into.old ≤ 4096 * self.old.blocks }
        ensures exact { IsErr result ↔ IsDue self.old.reads }
        ensures bytes { OnOk result (into.new
            ≡ slice_range self.old.bytes.items (4096 * at.0) (4096 * at.0 + length into.old)) }
        ensures failed { OnErr result (into.new ≡ into.old) }
        ensures device { self.new ≡ record self.old {
          reads = counted self.old.reads;
          faults = self.new.faults;
        } }
        ensures faults { CountsFault self.old.faults self.new.faults result }
        ensures cause { HasCause self.old.faults self.new.faults result }
    {
        if self.reads.strikes() {
            return fault(&mut self.faults);
        }
        let from = BLOCK_BYTES * at.0 as usize;
        into.copy_from_slice(&self.bytes[from..from + into.len()]);
        Ok(())
    }

    /// Fails exactly where it is listed or the log has no room for it.
    fn write(&mut self, at: Paddr, bytes: &[u8]) -> Result<(), Failed>
        requires whole { IsWholeBlocks (length bytes.now) }
        requires within { 4096 * at.0 + length bytes.now ≤ 4096 * self.old.blocks }
        ensures exact { IsErr result ↔ (IsDue self.old.writes
            ⊎ ¬ TakesWrite self.old.past (length bytes.now)) }
        ensures written { OnOk result (self.new.bytes.items
            ≡ overwritten (4096 * at.0) bytes.now self.old.bytes.items) }
        ensures logged { OnOk result (GoesOn self.old.past self.new.past
            (Wrote (4096 * at.0) bytes.now)) }
        ensures used { OnOk result (length self.new.past.written.items
            ≡ length self.old.past.written.items + length bytes.now) }
        ensures failed { OnErr result ((self.new.bytes ≡ self.old.bytes)
            × (self.new.past ≡ self.old.past)) }
        ensures counted { self.new.writes ≡ counted self.old.writes }
        ensures same { (self.new.blocks ≡ self.old.blocks) × (self.new.reads ≡ self.old.reads)
            × (self.new.syncs ≡ self.old.syncs) }
        ensures within { Torn (4096 * at.0)
            (length bytes.now) self.old.bytes.items self.new.bytes.items }
        ensures images { Follows (Torn (4096 * at.0) (length bytes.now))
            (MayLeaveNow self.old.past) (MayLeaveNow self.new.past) }
        ensures torn { OnOk result (Reaches (Torn (4096 * at.0) (length bytes.now))
            (MayLeaveNow self.old.past) (MayLeaveNow self.new.past)) }
        ensures unwritten { (c : List ℕ) → MayLeaveNow self.old.past c
            → MayLeaveNow self.new.past c }
        ensures time { Elapses (now_of self.old.past) (now_of self.new.past)
            (LeftSinceOf self.old.past) (LeftSinceOf self.new.past) (MayLeaveNow self.new.past) }
        ensures faults { CountsFault self.old.faults self.new.faults result }
        ensures cause { HasCause self.old.faults self.new.faults result }
    {
        if self.writes.strikes() || !self.past.takes_write(bytes.len()) {
            return fault(&mut self.faults);
        }
        let from = BLOCK_BYTES * at.0 as usize;
        self.past.write(from, bytes);
        overwrite(&mut self.bytes, from, bytes);
        Ok(())
    }

    /// Fails exactly where it is listed or the log has no room for it.
    fn sync(&mut self) -> Result<(), Failed>
        ensures exact { IsErr result ↔ (IsDue self.old.syncs ⊎ ¬ TakesSync self.old.past) }
        ensures stable { OnOk result ((c : List ℕ) → MayLeaveNow self.new.past c
            → c ≡ self.new.bytes.items) }
        ensures logged { OnOk result (GoesOn self.old.past self.new.past Synced) }
        ensures used { self.new.past.written ≡ self.old.past.written }
        ensures failed { OnErr result (self.new.past ≡ self.old.past) }
        ensures counted { self.new.syncs ≡ counted self.old.syncs }
        ensures same { (self.new.blocks ≡ self.old.blocks) × (self.new.bytes ≡ self.old.bytes)
            × (self.new.reads ≡ self.old.reads) × (self.new.writes ≡ self.old.writes) }
        ensures images { (c : List ℕ) → MayLeaveNow self.new.past c → MayLeaveNow self.old.past c }
        ensures time { Elapses (now_of self.old.past) (now_of self.new.past)
            (LeftSinceOf self.old.past) (LeftSinceOf self.new.past) (MayLeaveNow self.new.past) }
        ensures faults { CountsFault self.old.faults self.new.faults result }
        ensures cause { HasCause self.old.faults self.new.faults result }
    {
        if self.syncs.strikes() || !self.past.takes_sync() {
            return fault(&mut self.faults);
        }
        self.past.sync();
        Ok(())
    }
}
