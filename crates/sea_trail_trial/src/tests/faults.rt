//! Reads that fail.

use crate::fault::TrialFault;
use crate::format::Holds::{Mount, Plain};
use crate::image::{BLOCKS, Image, Step};
use crate::tests::both::is_same;
use Step::{Record, Roll, Tail};
use sea_base::{BLOCK_BYTES, Nths, Paddr};
use sea_device::{Device, Fails, MemDevice};
use sea_trail::{ScanFault, scan};
use std::alloc::Global;
use std::test::Fail;

// How many reads a scan makes: the superblock, the headers, and three segments.
const READS: u64 = 1 + 6 + 3;

// Two segments behind the tail's one.
const STEPS: [Step; 6] = [
    Record(Mount),
    Roll(1),
    Record(Plain(1)),
    Roll(2),
    Tail(1, 3),
    Record(Plain(1)),
];

// A device with the bytes of an image, on which the first scan fails at its first read, the second
// scan at its second one, and so on.
fn failing(alloc: Global, image: &Image) -> Result<MemDevice, TrialFault> {
    let mut reads = Nths::new(alloc);
    let mut nth = 0u64;
    for read in 1..=READS {
        nth = nth.saturating_add(read);
        reads.push(nth)?;
    }
    let fails = Fails {
        reads,
        ..Fails::none(alloc)
    };
    let room = BLOCK_BYTES as u64 * u64::from(BLOCKS);
    let mut device = MemDevice::new(alloc, BLOCKS, 1, room, fails)?;
    let bytes = image.device.bytes();
    if bytes.len() == BLOCK_BYTES * BLOCKS as usize && device.blocks() == BLOCKS {
        device.write(Paddr(0), bytes)?;
    }
    Ok(device)
}

#[test]
fn each_read_fails_once(rt: HostRuntime) -> Result<(), Fail> {
    let alloc = rt.alloc();
    let mut image = Image::new(alloc)?;
    image.rebuild(alloc, &STEPS)?;
    let want = scan(alloc, &mut image.device).map_err(TrialFault::from)?;
    let mut device = failing(alloc, &image)?;
    for read in 1..=READS {
        let fault = scan(alloc, &mut device).err();
        assert_eq!(rt; fault, Some(ScanFault::DeviceFault), "{read}");
        assert_eq!(rt; device.faults(), read);
    }
    let trail = scan(alloc, &mut device).map_err(TrialFault::from)?;
    assert!(rt; is_same(&want, &trail));
    assert_eq!(rt; trail.records.items().len(), 2);
    Ok(())
}
