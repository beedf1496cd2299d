//! The plain reader and the scan tell the same of images with bytes changed at random.

use crate::fault::TrialFault;
use crate::format::Holds::{Mount, Placed, Plain};
use crate::image::{Image, Step};
use crate::tests::both::read_both;
use crate::tests::dice::Dice;
use Step::{Record, Records, Roll, Tail};
use sea_base::BLOCK_BYTES;
use std::alloc::Global;
use std::test::Fail;

// Three segments, the tail within the first.
const STEPS: [Step; 9] = [
    Record(Mount),
    Records(2, Plain(1)),
    Roll(2),
    Record(Placed(2)),
    Record(Plain(5000)),
    Roll(4),
    Tail(1, 3),
    Record(Placed(1)),
    Record(Plain(1)),
];

// Where the blocks of these stand.
const RANGES: [(u64, u64); 4] = [(0, 7), (4097, 4105), (8193, 8199), (2049, 2051)];

// A byte of one of these blocks, mostly one near the front of it.
fn place(dice: &mut Dice) -> usize {
    let (from, to) = RANGES[dice.below(4) as usize];
    let block = from + dice.below(to.saturating_sub(from).max(1));
    let at = if dice.below(4) == 0 {
        dice.below(4096)
    } else {
        dice.below(200)
    };
    block as usize * BLOCK_BYTES + at as usize
}

// How many records the trail has, none where it is refused.
fn records(alloc: Global, image: &mut Image) -> Result<usize, TrialFault> {
    match read_both(alloc, image) {
        Ok(trail) => Ok(trail.records.items().len()),
        Err(TrialFault::Scan(_)) => Ok(0),
        Err(fault) => Err(fault),
    }
}

#[test]
fn bytes_changed_at_random(rt: HostRuntime) -> Result<(), Fail> {
    let alloc = rt.alloc();
    let mut image = Image::new(alloc)?;
    image.rebuild(alloc, &STEPS)?;
    let all = records(alloc, &mut image)?;
    assert_eq!(rt; all, 6);
    let mut dice = Dice::new(1);
    let mut fewer = 0u32;
    for _ in 0..25 {
        let (first, second) = (place(&mut dice), place(&mut dice));
        let bits = dice.byte();
        image.flip(alloc, first, bits)?;
        if records(alloc, &mut image)? < all {
            fewer = fewer.saturating_add(1);
        }
        image.flip(alloc, second, bits)?;
        if records(alloc, &mut image)? < all {
            fewer = fewer.saturating_add(1);
        }
        image.flip(alloc, first, bits)?;
        image.flip(alloc, second, bits)?;
    }
    assert!(rt; fewer > 25);
    assert_eq!(rt; records(alloc, &mut image)?, all);
    Ok(())
}
