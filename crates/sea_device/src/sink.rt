//! The sink in memory.
ghost use Rattle.std.specs.Prelude.{◌≡◌, ◌↔◌, ◌⊎◌, ◌-◌, ◌<◌, ◌≤◌, ◌++◌, [], Some, length, take, min, IfOk, OnErr, IsErr, vec_capacity};
ghost use Rattle.sea_device.specs.Device.{HasCause};
ghost use Rattle.sea_base.specs.Failures.{CountsFault, IsDue, counted, IsFresh};

use crate::append::append;
use crate::failures::fault;
use crate::{Failed, Sink};
use sea_base::{Failures, NoMemory, Nths};
use std::alloc::Global;

/// A sink with room for so many bytes, of which the listed puts fail.
#[derive(Debug, Drop)]
pub struct MemSink {
    bytes: Vec<u8>,
    room: u64,
    failures: Failures,
    faults: u64,
    ghost within: { length bytes.items ≤ room },
    ghost held: { room ≤ vec_capacity bytes },
}

impl MemSink {
    /// A sink that has taken nothing, and takes up to `room` bytes. The puts listed in `fails`,
    /// counted from 1, will fail.
    pub fn new(alloc: Global, room: u64, fails: Nths) -> Result<MemSink, NoMemory>
        ensures taken { IfOk result (λ made. ⟦<MemSink as Sink>⟧.taken made ≡ Some []) }
        ensures room { IfOk result (λ made. made.room ≡ room) }
        ensures fails { IfOk result (λ made. IsFresh fails made.failures) }
        ensures faults { IfOk result (λ made. ⟦<MemSink as Sink>⟧.faults made ≡ 0) }
    {
        let bytes = Vec::with_capacity(alloc, room as usize)?;
        Ok(MemSink {
            bytes,
            room,
            failures: Failures::new(fails),
            faults: 0,
        })
    }

    /// The bytes taken so far.
    pub fn taken(&self) -> &[u8]
        ensures { ⟦<MemSink as Sink>⟧.taken self.now ≡ Some result.now }
    {
        &self.bytes
    }
}

impl Sink for MemSink {
    ghost taken = { λ s. Some s.bytes.items };

    ghost faults = { λ s. s.faults };

    /// Fails exactly where it is listed or no room is left. Else it takes as many bytes as there is
    /// room for.
    fn put(&mut self, bytes: &[u8]) -> Result<usize, Failed>
        requires { 0 < length bytes.now }
        ensures exact { IsErr result ↔ (IsDue self.old.failures
            ⊎ (self.old.room ≤ length self.old.bytes.items)) }
        ensures count { IfOk result (λ n. n ≡ min (length bytes.now)
            (self.old.room - length self.old.bytes.items)) }
        ensures bytes { IfOk result (λ n. self.new.bytes.items ≡ self.old.bytes.items
            ++ take n bytes.now) }
        ensures failed { OnErr result (self.new.bytes.items ≡ self.old.bytes.items) }
        ensures counted { self.new.failures ≡ counted self.old.failures }
        ensures same { self.new.room ≡ self.old.room }
        ensures faults { CountsFault self.old.faults self.new.faults result }
        ensures cause { HasCause self.old.faults self.new.faults result }
    {
        let left = self.room as usize - self.bytes.len();
        if self.failures.strikes() || left == 0 {
            return fault(&mut self.faults);
        }
        let count = bytes.len().min(left);
        append(&mut self.bytes, &bytes[..count]);
        Ok(count)
    }
}
