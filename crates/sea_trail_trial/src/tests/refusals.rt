//! Why an image has no trail: each reason on an image that has it, and no other.

use crate::fault::TrialFault;
use crate::format::Holds::{Mount, Plain};
use crate::image::{BLOCKS, Image, Step};
use crate::tests::both::read_both;
use ImageWhy::{BadRecord, MissingSegment, NoSegment, NoSuper, OldFormat, Short};
use Step::{Copy, Record, Roll, Super, Tail, Zero};
use sea_base::Paddr;
use sea_trail::{ImageWhy, ScanFault, header_block};
use std::alloc::Global;
use std::test::Fail;

// Why the image is refused, none where it has a trail.
fn why(alloc: Global, image: &mut Image) -> Result<Option<ImageWhy>, TrialFault> {
    match read_both(alloc, image) {
        Ok(_) => Ok(None),
        Err(TrialFault::Scan(ScanFault::Refused(why))) => Ok(Some(why)),
        Err(fault) => Err(fault),
    }
}

fn bad(block: u32) -> Option<ImageWhy> {
    Some(BadRecord {
        block: Paddr(block),
    })
}

#[test]
fn why_an_image_is_refused(rt: HostRuntime) -> Result<(), Fail> {
    let alloc = rt.alloc();
    let mut image = Image::new(alloc)?;
    let rows: [(&[Step], Option<ImageWhy>); 8] = [
        (&[], None),
        (&[Zero(0)], Some(NoSuper)),
        (&[Super(1, 5)], Some(NoSuper)),
        (&[Super(1, 8192)], Some(NoSuper)),
        (&[Copy(1, 0)], Some(NoSuper)),
        (&[Super(2, 6)], Some(OldFormat { found: 2 })),
        (&[Super(0, 5)], Some(OldFormat { found: 0 })),
        (
            &[Super(1, 7)],
            Some(Short {
                have: BLOCKS,
                need: 14_337,
            }),
        ),
    ];
    for (steps, want) in rows {
        image.rebuild(alloc, steps)?;
        assert_eq!(rt; why(alloc, &mut image)?, want, "{steps:?}");
    }
    Ok(())
}

#[test]
fn a_device_that_is_too_short(rt: HostRuntime) -> Result<(), Fail> {
    let alloc = rt.alloc();
    for have in [2, 2049, BLOCKS - 1] {
        let mut image = Image::sized(alloc, have)?;
        assert_eq!(rt; why(alloc, &mut image)?, Some(Short { have, need: BLOCKS }));
    }
    let mut image = Image::empty(alloc, 0)?;
    assert_eq!(rt; why(alloc, &mut image)?, Some(NoSuper));
    let mut image = Image::empty(alloc, 1)?;
    assert_eq!(rt; why(alloc, &mut image)?, Some(NoSuper));
    Ok(())
}

// Three segments, with a record in each of the first two.
const THREE: [Step; 4] = [Record(Mount), Roll(1), Record(Plain(1)), Roll(2)];

#[test]
fn why_a_chain_is_refused(rt: HostRuntime) -> Result<(), Fail> {
    let alloc = rt.alloc();
    let mut image = Image::new(alloc)?;
    let rows: [(&[Step], Option<ImageWhy>); 9] = [
        (&[], None),
        (&[Zero(1), Zero(2049), Zero(4097)], Some(NoSegment)),
        (&[Zero(1)], Some(MissingSegment { seq: 1 })),
        (&[Zero(1), Zero(2049)], Some(MissingSegment { seq: 1 })),
        (&[Zero(2049)], Some(MissingSegment { seq: 2 })),
        (&[Zero(2)], bad(2)),
        (&[Zero(2050)], bad(2050)),
        (&[Zero(2), Zero(2050)], bad(2)),
        (&[Zero(2), Zero(2049)], Some(MissingSegment { seq: 2 })),
    ];
    for (steps, want) in rows {
        image.rebuild(alloc, &THREE)?;
        for step in steps {
            image.step(alloc, *step)?;
        }
        assert_eq!(rt; why(alloc, &mut image)?, want, "{steps:?}");
    }
    Ok(())
}

#[test]
fn a_tail_where_nothing_stands(rt: HostRuntime) -> Result<(), Fail> {
    let alloc = rt.alloc();
    let mut image = Image::new(alloc)?;
    for (seq, place, want) in [
        (1, 2, None),
        (1, 3, None),
        (1, 5, None),
        (1, 4, bad(4)),
        (1, 6, bad(6)),
        (1, 1, bad(1)),
        (2, 2050, None),
        (2, 2051, None),
        (2, 2, bad(2)),
        (2, 2052, bad(2052)),
        (3, 2050, bad(2050)),
        (0, 2, None),
    ] {
        let steps = [
            Record(Mount),
            Record(Plain(1)),
            Roll(1),
            Tail(seq, place),
            Record(Mount),
        ];
        image.rebuild(alloc, &steps)?;
        assert_eq!(rt; why(alloc, &mut image)?, want, "{seq} {place}");
    }
    Ok(())
}

// A header counts only in the first block of the segment that it names.
#[test]
fn a_header_on_each_wrong_place(rt: HostRuntime) -> Result<(), Fail> {
    let alloc = rt.alloc();
    let mut image = Image::new(alloc)?;
    for named in 0..6u32 {
        let right = header_block(named);
        image.rebuild(alloc, &[Zero(1), Roll(named)])?;
        assert_eq!(rt; why(alloc, &mut image)?, Some(MissingSegment { seq: 1 }));
        image.step(alloc, Copy(right, 2))?;
        image.step(alloc, Zero(right))?;
        for segment in 0..6u32 {
            let at = header_block(segment);
            if at != right {
                image.step(alloc, Copy(2, at))?;
                assert_eq!(rt; why(alloc, &mut image)?, Some(NoSegment), "{named} {at}");
                image.step(alloc, Zero(at))?;
            }
        }
        image.step(alloc, Copy(2, right))?;
        assert_eq!(rt; why(alloc, &mut image)?, Some(MissingSegment { seq: 1 }));
    }
    Ok(())
}
