//! The device whose calls never fail.
ghost use Rattle.std.specs.Prelude.{◌≡◌, ℕ, ◌*◌, ◌<◌, Some, false, length, slice_index, replicate, IfOk};
ghost use Rattle.std.proofs.lemmas.Bool.{false≢true};
ghost use Rattle.sea_device.specs.Steady.{whole_image};

use crate::overwrite::overwrite;
use crate::{Device, Failed};
use sea_base::{BLOCK_BYTES, NoMemory, Paddr};
use std::alloc::Global;

/// A device in memory that tells its bytes, and nothing of a crash. None of its calls fails.
#[derive(Debug, Drop)]
pub struct SteadyDevice {
    blocks: u32,
    bytes: Vec<u8>,
    ghost whole: { length bytes.items ≡ 4096 * blocks },
    ghost fits: { (i : ℕ) → slice_index bytes.items i < 256 },
}

impl SteadyDevice {
    /// A device of zeros.
    pub fn new(alloc: Global, blocks: u32) -> Result<SteadyDevice, NoMemory>
        ensures size { IfOk result (λ made. ⟦<SteadyDevice as Device>⟧.size made ≡ blocks) }
        ensures zeros { IfOk result (λ made. ⟦<SteadyDevice as Device>⟧.contents made
            ≡ Some (replicate (4096 * blocks) 0)) }
    {
        let bytes = vec![in alloc; 0; blocks as usize * BLOCK_BYTES]?;
        Ok(SteadyDevice { blocks, bytes })
    }

    /// The bytes now.
    pub fn bytes(&self) -> &[u8]
        ensures { ⟦<SteadyDevice as Device>⟧.contents self.now ≡ Some result.now }
    {
        &self.bytes
    }
}

impl Device for SteadyDevice {
    ghost size = { λ d. d.blocks };

    ghost contents = { λ d. Some d.bytes.items };

    ghost tells_images = { λ d. false };

    ghost may_leave = { λ d c. ⊥ };

    ghost clock = { λ d. 0 };

    ghost left_since = { λ d t c. ⊥ };

    ghost faults = { λ d. 0 };

    ghost whole = { λ d b is. whole_image d.blocks d.bytes.items b d.whole d.fits is };

    ghost images_whole = { λ d c left. absurd left };

    ghost now_among = { λ d b told is. absurd (false≢true told) };

    ghost counts_now = { λ d t c le left. left };

    ghost only_now = { λ d c left. left };

    fn blocks(&self) -> u32 {
        self.blocks
    }

    fn read(&mut self, at: Paddr, into: &mut [u8]) -> Result<(), Failed> {
        let from = BLOCK_BYTES * at.0 as usize;
        into.copy_from_slice(&self.bytes[from..from + into.len()]);
        Ok(())
    }

    fn write(&mut self, at: Paddr, bytes: &[u8]) -> Result<(), Failed> {
        let from = BLOCK_BYTES * at.0 as usize;
        overwrite(&mut self.bytes, from, bytes);
        Ok(())
    }

    fn sync(&mut self) -> Result<(), Failed> {
        Ok(())
    }
}
