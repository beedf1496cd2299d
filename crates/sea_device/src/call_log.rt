//! What was done to a device, call by call.
ghost use Rattle.std.specs.Prelude.{◌≡◌, ℕ, ◌+◌, ◌<◌, ◌≤◌, ◌↔◌, length, slice_index, slice_index_or, IfOk, IsTrue, vec_capacity};
ghost use Rattle.sea_device.specs.declared.call_log.Call.TheVariants.{Sync};
ghost use Rattle.sea_device.specs.Moments.{Wrote, Synced, bytes_after};
ghost use Rattle.sea_device.specs.CallLog.{end_of, end_in};

use crate::append::append;
use crate::overwrite::overwrite;
use sea_base::{BLOCK_BYTES, NoMemory};
use std::alloc::Global;

/// A write or a sync. The bytes of a write are those of all writes from `from` on.
#[derive(Clone, Copy, Debug)]
pub enum Call {
    Write { at: usize, from: usize, len: usize },
    Sync,
}

/// How many calls a log has room for, and how many written bytes.
#[derive(Clone, Copy, Debug)]
pub struct Room {
    pub calls: u32,
    pub bytes: u64,
}

/// The bytes at first, and each write and sync since. It takes its memory when it is made.
#[derive(Debug, Drop)]
pub struct CallLog {
    start: Vec<u8>,
    calls: Vec<Call>,
    written: Vec<u8>,
    room: Room,
    ghost calls_within: { length calls.items ≤ room.calls },
    ghost calls_held: { room.calls ≤ vec_capacity calls },
    ghost written_within: { length written.items ≤ room.bytes },
    ghost written_held: { room.bytes ≤ vec_capacity written },
    ghost start_fits: { (i : ℕ) → slice_index start.items i < 256 },
    ghost written_fits: { (i : ℕ) → slice_index written.items i < 256 },
    ghost on_device: { (k : ℕ) → end_of (slice_index_or calls.items k Sync) ≤ length start.items },
    ghost in_written: { (k : ℕ)
        → end_in (slice_index_or calls.items k Sync) ≤ length written.items },
}

impl CallLog {
    ghost use Rattle.sea_device.specs.Past.{now_of, changes_of, bytes_of, stable_of, IsUnsyncedOf, TakesSync, TakesWrite, IsNew, GoesOn};

    /// The log of a device with these bytes, to which nothing was done.
    pub fn new(alloc: Global, start: Vec<u8>, room: Room) -> Result<CallLog, NoMemory>
        ensures { IfOk result (IsNew start.items room) }
    {
        let calls = Vec::with_capacity(alloc, room.calls as usize)?;
        let written = Vec::with_capacity(alloc, room.bytes as usize)?;
        Ok(CallLog {
            start,
            calls,
            written,
            room,
        })
    }

    /// How many writes and syncs there were.
    pub fn count(&self) -> usize
        ensures { result ≡ now_of self.now }
    {
        self.calls.len()
    }

    /// The room that it has in all.
    pub fn room(&self) -> Room
        ensures { result ≡ self.now.room }
    {
        self.room
    }

    /// Whether there is room for one more sync.
    pub fn takes_sync(&self) -> bool
        ensures { IsTrue result ↔ TakesSync self.now }
    {
        self.calls.len() < self.room.calls as usize
    }

    /// Whether there is room for one more write of so many bytes.
    pub fn takes_write(&self, len: usize) -> bool
        ensures { IsTrue result ↔ TakesWrite self.now len }
    {
        self.takes_sync() && len as u64 <= self.room.bytes - self.written.len() as u64
    }

    /// Logs a sync.
    pub fn sync(&mut self)
        requires { TakesSync self.old }
        ensures goes_on { GoesOn self.old self.new Synced }
        ensures written { self.new.written ≡ self.old.written }
    {
        append(&mut self.calls, &[Call::Sync]);
    }

    /// Logs a write of these bytes from the offset `at` on.
    pub fn write(&mut self, at: usize, bytes: &[u8])
        requires room { TakesWrite self.old (length bytes.now) }
        requires within { at + length bytes.now ≤ length self.old.start.items }
        ensures goes_on { GoesOn self.old self.new (Wrote at bytes.now) }
        ensures written { length self.new.written.items
            ≡ length self.old.written.items + length bytes.now }
    {
        let call = Call::Write {
            at,
            from: self.written.len(),
            len: bytes.len(),
        };
        append(&mut self.written, bytes);
        append(&mut self.calls, &[call]);
    }

    /// How many of the first so many calls come before the last sync, or 0.
    fn synced(&self, moment: usize) -> usize
        requires { moment ≤ now_of self.now }
        ensures within { result ≤ moment }
        ensures stable { stable_of self.now moment ≡ bytes_of self.now result }
    {
        for index in (0..moment).rev() {
            if let Call::Sync = self.calls[index] {
                return index;
            }
        }
        0
    }

    /// Whether a block was written and not synced after the first so many calls.
    pub fn is_unsynced(&self, moment: usize, block: u32) -> bool
        requires { moment ≤ now_of self.now }
        ensures { IsTrue result ↔ IsUnsyncedOf self.now moment block }
    {
        let place = BLOCK_BYTES * block as usize;
        for index in (0..moment).rev() {
            match self.calls[index] {
                Call::Sync => return false,
                Call::Write { at, len, .. } => {
                    if at <= place && place + BLOCK_BYTES <= at + len {
                        return true;
                    }
                }
            }
        }
        false
    }

    /// Makes the change of a call once more.
    fn redo(&self, index: usize, bytes: &mut [u8])
        requires call { index < now_of self.now }
        requires size { length bytes.old ≡ length self.now.start.items }
        ensures { bytes.new ≡ bytes_after (changes_of self.now index) bytes.old }
    {
        if let Call::Write { at, from, len } = self.calls[index] {
            overwrite(bytes, at, &self.written[from..from + len]);
        }
    }

    /// The bytes after the first so many calls.
    fn bytes(&self, moment: usize) -> Result<Vec<u8>, NoMemory>
        requires { moment ≤ now_of self.now }
        ensures { IfOk result (λ made. made.items ≡ bytes_of self.now moment) }
    {
        let mut bytes = self.start.to_vec(*self.start.allocator())?;
        for index in 0..moment {
            self.redo(index, &mut bytes);
        }
        Ok(bytes)
    }

    /// The bytes that were stable after the first so many calls.
    pub fn stable(&self, moment: usize) -> Result<Vec<u8>, NoMemory>
        requires { moment ≤ now_of self.now }
        ensures { IfOk result (λ made. made.items ≡ stable_of self.now moment) }
    {
        self.bytes(self.synced(moment))
    }
}
