//! A device that keeps all that was ever written to it, so that images of crashes cost little.
ghost use Rattle.std.specs.Prelude.{◌≡◌, ℕ, List, None, false, IsErr};
ghost use Rattle.std.proofs.lemmas.Bool.{false≢true};
ghost use Rattle.sea_base.specs.Failures.{one_more};
ghost use Rattle.sea_device.specs.Device.{HasCause};
ghost use Rattle.sea_journal_trial.specs.Untold.{none_told};

use crate::fault::TrialFault;
use sea_base::{BLOCK_BYTES, Paddr};
use sea_device::{Device, Failed};
use std::alloc::Global;

/// What was done to a device: so many blocks were written at a place, and are kept from that number
/// on; or it was synced.
#[derive(Clone, Copy, Debug)]
pub enum Call {
    Write { at: u32, from: u32, count: u32 },
    Sync,
}

/// A device in memory of which few blocks are ever written. It tells no bytes to contracts. One of
/// its calls may fail: a write then does the first half of its blocks.
#[derive(Debug, Drop)]
pub struct Disk {
    blocks: u32,
    // Which of the kept blocks stands at each place. The first of them is of zeros.
    held: Vec<u32>,
    kept: Vec<u8>,
    log: Vec<Call>,
    calls: u64,
    // The number of the call that fails, from 1 on. No call has the number 0.
    failing: u64,
    faults: u64,
}

impl Disk {
    /// A device of zeros, of which the call with this number fails.
    pub fn new(alloc: Global, blocks: u32, failing: u64) -> Result<Disk, TrialFault> {
        Ok(Disk {
            blocks,
            held: vec![in alloc; 0; blocks as usize]?,
            kept: vec![in alloc; 0; BLOCK_BYTES]?,
            log: Vec::new(alloc),
            calls: 0,
            failing,
            faults: 0,
        })
    }

    /// How many calls failed.
    pub fn faults(&self) -> u64 {
        self.faults
    }

    /// How many calls were made.
    pub fn calls(&self) -> u64 {
        self.calls
    }

    /// The calls since the beginning.
    pub fn log(&self) -> &[Call] {
        &self.log
    }

    /// Which of the kept blocks stands at a place.
    pub fn held(&self, at: u32) -> u32 {
        match self.held.get(at as usize) {
            Some(number) => *number,
            None => 0,
        }
    }

    /// Makes a kept block stand at a place.
    pub fn hold(&mut self, at: u32, number: u32) {
        lay(&mut self.held, at, number, 1);
    }

    /// Makes zeros stand at each place again. What was written stays kept.
    pub fn rewind(&mut self) {
        for number in self.held.iter_mut() {
            *number = 0;
        }
    }

    // Whether this call is the one that fails.
    fn strikes(&mut self) -> bool
        ensures size { self.new.blocks ≡ self.old.blocks }
        ensures faults { self.new.faults ≡ self.old.faults }
    {
        self.calls = self.calls.saturating_add(1);
        self.calls == self.failing
    }

    // Counts a fault.
    fn fail(&mut self) -> Result<(), Failed>
        ensures failed { IsErr result }
        ensures size { self.new.blocks ≡ self.old.blocks }
        ensures counted { self.new.faults ≡ one_more self.old.faults }
        ensures cause { HasCause self.old.faults self.new.faults result }
    {
        self.faults = self.faults.saturating_add(1);
        Err(Failed)
    }

    // Keeps blocks, makes them stand from a place on, and notes it.
    fn keep(&mut self, at: u32, bytes: &[u8]) -> Result<(), TrialFault>
        ensures size { self.new.blocks ≡ self.old.blocks }
        ensures faults { self.new.faults ≡ self.old.faults }
    {
        let from = blocks_in(&self.kept);
        let count = blocks_in(bytes);
        self.kept.extend_from_slice(bytes)?;
        self.log.push(Call::Write { at, from, count })?;
        lay(&mut self.held, at, from, count);
        Ok(())
    }
}

fn blocks_in(bytes: &[u8]) -> u32 {
    u32::try_from(bytes.len() / BLOCK_BYTES).unwrap_or(0)
}

// Makes so many kept blocks stand from a place on.
fn lay(held: &mut [u32], at: u32, from: u32, count: u32) {
    for i in 0..count {
        if let Some(number) = held.get_mut(at as usize + i as usize) {
            *number = from.saturating_add(i);
        }
    }
}

// Copies what stands from a place on.
fn fetch(held: &[u32], kept: &[u8], at: u32, into: &mut [u8]) {
    for (i, block) in into.chunks_exact_mut(BLOCK_BYTES).enumerate() {
        let number = held.get((at as usize).saturating_add(i)).unwrap_or(&0);
        let from = *number as usize * BLOCK_BYTES;
        if let Some(bytes) = kept.get(from..from + BLOCK_BYTES)
            && bytes.len() == block.len()
        {
            block.copy_from_slice(bytes);
        }
    }
}

impl Device for Disk {
    ghost size = { λ d. d.blocks };

    ghost contents = { λ d. None };

    ghost tells_images = { λ d. false };

    ghost may_leave = { λ d c. ⊥ };

    ghost clock = { λ d. 0 };

    ghost left_since = { λ d t c. ⊥ };

    ghost faults = { λ d. d.faults };

    ghost whole = { λ d b is. absurd (none_told b is) };

    ghost images_whole = { λ d c left. absurd left };

    ghost now_among = { λ d b told is. absurd (false≢true told) };

    ghost counts_now = { λ d t c le left. left };

    ghost only_now = { λ d c left. left };

    fn blocks(&self) -> u32 {
        self.blocks
    }

    fn read(&mut self, at: Paddr, into: &mut [u8]) -> Result<(), Failed> {
        if self.strikes() {
            return self.fail();
        }
        fetch(&self.held, &self.kept, at.0, into);
        Ok(())
    }

    fn write(&mut self, at: Paddr, bytes: &[u8]) -> Result<(), Failed> {
        if self.strikes() {
            let half = bytes.len() / BLOCK_BYTES / 2 * BLOCK_BYTES;
            if let Some(first) = bytes.get(..half)
                && half > 0
            {
                let _ = self.keep(at.0, first);
            }
            return self.fail();
        }
        if self.keep(at.0, bytes).is_err() {
            return self.fail();
        }
        Ok(())
    }

    fn sync(&mut self) -> Result<(), Failed> {
        if self.strikes() || self.log.push(Call::Sync).is_err() {
            return self.fail();
        }
        Ok(())
    }
}
