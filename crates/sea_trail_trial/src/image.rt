//! Images under construction.

use crate::fault::TrialFault;
use crate::format::{Holds, Says, Spelled, entry, header, superblock};
use sea_base::{BLOCK_BYTES, Digest, Paddr};
use sea_device::{Device, SteadyDevice};
use std::alloc::Global;
use std::mem;

/// How many segments an image has.
pub const SEGMENTS: u32 = 6;

/// How many blocks these need.
pub const BLOCKS: u32 = 12_289;

// What the first header of a fresh image says, but for its sequence number.
const FIRST: Says = Says {
    mount: 0,
    seq: 0,
    commit: 0,
    tail_seq: 1,
    tail: 2,
    prev: Digest([0; 32]),
};

/// What is done next to an image.
#[derive(Clone, Copy, Debug)]
pub enum Step {
    /// A superblock of this format, for so many segments.
    Super(u32, u32),
    /// A record.
    Record(Holds),
    /// So many records.
    Records(u32, Holds),
    /// A record of which nothing reaches the device.
    Lost(Holds),
    /// The header of this segment, with the next sequence number.
    Roll(u32),
    /// From now on links name this tail: a sequence number and a place.
    Tail(u64, u32),
    /// Links have this sequence number from now on.
    Seq(u64),
    /// Here the image may go back to.
    Mark,
    /// The next link goes on from where the mark is. The bytes behind it stay.
    Back,
    /// A block of zeros.
    Zero(u32),
    /// What is in the first block, in the second one too.
    Copy(u32, u32),
}

/// An image under construction: what its last link says, and where the next record stands.
#[derive(Debug, Drop)]
pub struct Image {
    pub device: SteadyDevice,
    says: Says,
    end: u32,
    marked: (Says, u32),
    written: Vec<(u32, u32)>,
}

impl Image {
    /// A fresh image.
    pub fn new(alloc: Global) -> Result<Image, TrialFault> {
        Image::sized(alloc, BLOCKS)
    }

    /// What a fresh image has in its first so many blocks.
    pub fn sized(alloc: Global, blocks: u32) -> Result<Image, TrialFault> {
        let mut image = Image::empty(alloc, blocks)?;
        image.begin(alloc)?;
        Ok(image)
    }

    /// So many blocks of zeros.
    pub fn empty(alloc: Global, blocks: u32) -> Result<Image, TrialFault> {
        let device = SteadyDevice::new(alloc, blocks)?;
        Ok(Image {
            device,
            says: FIRST,
            end: 2,
            marked: (FIRST, 2),
            written: Vec::new(alloc),
        })
    }

    /// Makes the image fresh again, and does these to it.
    pub fn rebuild(&mut self, alloc: Global, steps: &[Step]) -> Result<(), TrialFault> {
        let written = mem::replace(&mut self.written, Vec::new(alloc));
        for (at, count) in written {
            for block in 0..count {
                self.write(at.saturating_add(block), &[0; BLOCK_BYTES])?;
            }
        }
        self.begin(alloc)?;
        for step in steps {
            self.step(alloc, *step)?;
        }
        Ok(())
    }

    // Writes the superblock and the first header.
    fn begin(&mut self, alloc: Global) -> Result<(), TrialFault> {
        self.says = FIRST;
        self.step(alloc, Step::Super(1, SEGMENTS))?;
        self.step(alloc, Step::Roll(0))
    }

    /// Does one of these.
    pub fn step(&mut self, alloc: Global, step: Step) -> Result<(), TrialFault> {
        match step {
            Step::Super(format, segments) => {
                let made = superblock(alloc, format, segments)?;
                self.put(0, &made.bytes)
            }
            Step::Record(holds) => self.append(alloc, holds, true),
            Step::Records(count, holds) => {
                for _ in 0..count {
                    self.append(alloc, holds, true)?;
                }
                Ok(())
            }
            Step::Lost(holds) => self.append(alloc, holds, false),
            Step::Roll(segment) => self.roll(alloc, segment),
            Step::Zero(at) => self.put(at, &[0; BLOCK_BYTES]),
            Step::Copy(from, to) => {
                let block = self.block(alloc, from)?;
                self.put(to, &block)
            }
            Step::Tail(..) | Step::Seq(_) | Step::Mark | Step::Back => {
                self.say(step);
                Ok(())
            }
        }
    }

    // Changes what the next link says.
    fn say(&mut self, step: Step) {
        match step {
            Step::Tail(seq, place) => {
                self.says.tail_seq = seq;
                self.says.tail = place;
            }
            Step::Seq(seq) => self.says.seq = seq,
            Step::Mark => self.marked = (self.says, self.end),
            Step::Back => (self.says, self.end) = self.marked,
            _ => {}
        }
    }

    // Appends a record, which counts also where it isn't written.
    fn append(&mut self, alloc: Global, holds: Holds, written: bool) -> Result<(), TrialFault> {
        self.says.commit = self.says.commit.saturating_add(1);
        if let Holds::Mount = holds {
            self.says.mount = self.says.mount.saturating_add(1);
        }
        let Spelled { bytes, digest } = entry(alloc, self.end, &self.says, holds)?;
        if written {
            self.put(self.end, &bytes)?;
        }
        let blocks = u32::try_from(bytes.len() / BLOCK_BYTES).unwrap_or(0);
        self.end = self.end.saturating_add(blocks);
        self.says.prev = digest;
        Ok(())
    }

    // Opens a segment.
    fn roll(&mut self, alloc: Global, segment: u32) -> Result<(), TrialFault> {
        self.says.seq = self.says.seq.saturating_add(1);
        let Spelled { bytes, digest } = header(alloc, segment, &self.says)?;
        let at = segment.saturating_mul(2048).saturating_add(1);
        self.put(at, &bytes)?;
        self.end = at.saturating_add(1);
        self.says.prev = digest;
        Ok(())
    }

    // Writes whole blocks, and notes which.
    fn put(&mut self, at: u32, bytes: &[u8]) -> Result<(), TrialFault> {
        let count = u32::try_from(bytes.len() / BLOCK_BYTES).unwrap_or(0);
        self.written.push((at, count))?;
        self.write(at, bytes)
    }

    // Writes whole blocks, where they are on the device.
    fn write(&mut self, at: u32, bytes: &[u8]) -> Result<(), TrialFault> {
        let count = bytes.len() / BLOCK_BYTES;
        if bytes.is_empty()
            || bytes.len() % BLOCK_BYTES != 0
            || at as usize + count > self.device.blocks() as usize
        {
            return Err(TrialFault::Beyond);
        }
        self.device.write(Paddr(at), bytes)?;
        Ok(())
    }

    // The bytes of a block.
    fn block(&self, alloc: Global, at: u32) -> Result<Vec<u8>, TrialFault> {
        let from = at as usize * BLOCK_BYTES;
        let Some(block) = self.device.bytes().get(from..from + BLOCK_BYTES) else {
            return Err(TrialFault::Beyond);
        };
        let bytes = block.to_vec(alloc)?;
        Ok(bytes)
    }

    /// Changes bits of a byte.
    pub fn flip(&mut self, alloc: Global, at: usize, bits: u8) -> Result<(), TrialFault> {
        let place = u32::try_from(at / BLOCK_BYTES).map_err(|_| TrialFault::Beyond)?;
        let mut block = self.block(alloc, place)?;
        if let Some(byte) = block.get_mut(at % BLOCK_BYTES) {
            *byte ^= bits;
        }
        self.put(place, &block)
    }
}
