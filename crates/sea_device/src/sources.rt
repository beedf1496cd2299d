//! Sources in memory.
ghost use Rattle.std.specs.Prelude.{◌≡◌, ◌↔◌, ◌-◌, ◌<◌, ◌≤◌, Some, length, drop, min, IfOk, OnErr, IsErr};
ghost use Rattle.sea_device.specs.Device.{HasCause};
ghost use Rattle.sea_device.specs.Stream.{Hands};
ghost use Rattle.sea_base.specs.Failures.{CountsFault, IsDue, counted, IsFresh};

use crate::failures::fault;
use crate::{Failed, Source};
use sea_base::{Data, Failures, Nths};

/// A source of these bytes. None of its calls fails.
#[derive(Debug, Drop)]
pub struct SteadySource {
    bytes: Data,
    taken: usize,
    ghost within: { taken ≤ length bytes },
}

impl SteadySource {
    /// A source of these bytes.
    pub fn new(bytes: Data) -> SteadySource
        ensures { ⟦<SteadySource as Source>⟧.remaining result ≡ Some bytes }
    {
        SteadySource { bytes, taken: 0 }
    }

    /// Hands over the next bytes, as many as there are and fit, and tells how many.
    fn give(&mut self, into: &mut [u8]) -> usize
        requires { 0 < length into.old }
        ensures count { result ≡ min (length into.old) (length self.old.bytes - self.old.taken) }
        ensures bytes { Hands result into.new (Some (drop self.old.taken self.old.bytes))
            (Some (drop self.new.taken self.new.bytes)) }
        ensures rest { drop result into.new ≡ drop result into.old }
    {
        let rest = &self.bytes.bytes()[self.taken..];
        let count = into.len().min(rest.len());
        into[..count].copy_from_slice(&rest[..count]);
        self.taken += count;
        count
    }
}

impl Source for SteadySource {
    ghost remaining = { λ s. Some (drop s.taken s.bytes) };

    ghost faults = { λ s. 0 };

    fn take(&mut self, into: &mut [u8]) -> Result<usize, Failed>
        requires { 0 < length into.old }
        ensures count { IfOk result (λ n. n ≡ min (length into.old)
            (length self.old.bytes - self.old.taken)) }
        ensures bytes { IfOk result (λ n. Hands n into.new
            (Some (drop self.old.taken self.old.bytes))
            (Some (drop self.new.taken self.new.bytes))) }
        ensures rest { IfOk result (λ n. drop n into.new ≡ drop n into.old) }
        ensures never { IsErr result → ⊥ }
    {
        Ok(self.give(into))
    }
}

/// A source that gives no more than a piece at once, and of which the listed takes fail.
#[derive(Debug, Drop)]
pub struct MemSource {
    source: SteadySource,
    piece: u32,
    failures: Failures,
    faults: u64,
    ghost moves: { 1 ≤ piece },
}

impl MemSource {
    /// A source of these bytes, at most `piece` of them at once. The takes listed in `fails`,
    /// counted from 1, will fail.
    pub fn new(bytes: Data, piece: u32, fails: Nths) -> MemSource
        requires { 1 ≤ piece }
        ensures remaining { ⟦<MemSource as Source>⟧.remaining result ≡ Some bytes }
        ensures piece { result.piece ≡ piece }
        ensures fails { IsFresh fails result.failures }
        ensures faults { ⟦<MemSource as Source>⟧.faults result ≡ 0 }
    {
        MemSource {
            source: SteadySource::new(bytes),
            piece,
            failures: Failures::new(fails),
            faults: 0,
        }
    }
}

impl Source for MemSource {
    ghost remaining = { λ s. Some (drop s.source.taken s.source.bytes) };

    ghost faults = { λ s. s.faults };

    /// Fails exactly where it is listed. Else it gives the least of the length of `into`, the piece
    /// and what is left.
    fn take(&mut self, into: &mut [u8]) -> Result<usize, Failed>
        requires { 0 < length into.old }
        ensures exact { IsErr result ↔ IsDue self.old.failures }
        ensures count { IfOk result (λ n. n ≡ min (min (length into.old) self.old.piece)
            (length self.old.source.bytes - self.old.source.taken)) }
        ensures bytes { IfOk result (λ n. Hands n into.new
            (Some (drop self.old.source.taken self.old.source.bytes))
            (Some (drop self.new.source.taken self.new.source.bytes))) }
        ensures rest { IfOk result (λ n. drop n into.new ≡ drop n into.old) }
        ensures failed { OnErr result ((self.new.source ≡ self.old.source)
            × (into.new ≡ into.old)) }
        ensures counted { self.new.failures ≡ counted self.old.failures }
        ensures same { self.new.piece ≡ self.old.piece }
        ensures faults { CountsFault self.old.faults self.new.faults result }
        ensures cause { HasCause self.old.faults self.new.faults result }
    {
        if self.failures.strikes() {
            return fault(&mut self.faults);
        }
        let most = into.len().min(self.piece as usize);
        Ok(self.source.give(&mut into[..most]))
    }
}
