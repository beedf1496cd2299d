//! Which records of an image count.

use crate::fault::TrialFault;
use crate::format::Holds::{Mount, Placed, Plain};
use crate::image::{Image, Step};
use crate::tests::both::read_both;
use Step::{Back, Copy, Lost, Mark, Record, Records, Roll, Seq, Tail, Zero};
use std::alloc::Global;
use std::test::Fail;

// How many records and headers the trail has, and where it ends.
fn told(alloc: Global, image: &mut Image) -> Result<(usize, usize, u32), TrialFault> {
    let trail = read_both(alloc, image)?;
    Ok((
        trail.records.items().len(),
        trail.headers.items().len(),
        trail.end.0,
    ))
}

#[test]
fn records_up_to_a_gap(rt: HostRuntime) -> Result<(), Fail> {
    let alloc = rt.alloc();
    let mut image = Image::new(alloc)?;
    let rows: [(&[Step], usize, u32); 6] = [
        (&[], 0, 2),
        (&[Record(Mount), Record(Plain(5000))], 2, 6),
        (&[Record(Mount), Lost(Plain(1)), Record(Plain(1))], 1, 3),
        (&[Lost(Mount), Record(Plain(1)), Record(Plain(1))], 0, 2),
        (
            &[
                Record(Mount),
                Records(2, Plain(1)),
                Zero(5),
                Record(Plain(1)),
            ],
            2,
            5,
        ),
        (&[Record(Mount), Records(2, Placed(2)), Zero(5)], 1, 3),
    ];
    for (steps, records, end) in rows {
        image.rebuild(alloc, steps)?;
        assert_eq!(rt; told(alloc, &mut image), Ok((records, 1, end)), "{steps:?}");
    }
    Ok(())
}

// Behind the mark stands what an earlier use left there: nothing tears it but the block before it.
#[test]
fn a_stale_record_behind_a_torn_block(rt: HostRuntime) -> Result<(), Fail> {
    let alloc = rt.alloc();
    let mut image = Image::new(alloc)?;
    let rows: [(&[Step], usize, u32); 4] = [
        (
            &[
                Record(Mount),
                Mark,
                Record(Plain(1)),
                Record(Plain(2)),
                Back,
            ],
            3,
            7,
        ),
        (
            &[
                Record(Mount),
                Mark,
                Record(Plain(1)),
                Record(Plain(2)),
                Back,
                Record(Plain(3)),
            ],
            2,
            5,
        ),
        (
            &[
                Record(Mount),
                Mark,
                Record(Plain(1)),
                Record(Plain(2)),
                Back,
                Record(Mount),
            ],
            2,
            4,
        ),
        (&[Record(Mount), Mark, Seq(7), Record(Plain(1)), Back], 1, 3),
    ];
    for (steps, records, end) in rows {
        image.rebuild(alloc, steps)?;
        assert_eq!(rt; told(alloc, &mut image), Ok((records, 1, end)), "{steps:?}");
    }
    Ok(())
}

#[test]
fn segments_behind_one_another(rt: HostRuntime) -> Result<(), Fail> {
    let alloc = rt.alloc();
    let mut image = Image::new(alloc)?;
    let rows: [(&[Step], usize, usize, u32); 7] = [
        (&[Record(Mount), Record(Plain(1)), Roll(3)], 2, 2, 6146),
        (&[Record(Plain(2))], 3, 2, 6148),
        (&[Tail(1, 3), Record(Plain(3))], 3, 2, 6150),
        (&[Tail(1, 5), Record(Plain(4))], 3, 2, 6152),
        (&[Tail(2, 6148), Record(Plain(5))], 3, 2, 6154),
        (&[Mark, Seq(1), Roll(5), Back], 3, 3, 6154),
        (&[Roll(1)], 3, 4, 2050),
    ];
    for (steps, records, headers, end) in rows {
        for step in steps {
            image.step(alloc, *step)?;
        }
        let want = Ok((records, headers, end));
        assert_eq!(rt; told(alloc, &mut image), want, "{steps:?}");
    }
    Ok(())
}

#[test]
fn segments_full_of_records(rt: HostRuntime) -> Result<(), Fail> {
    let alloc = rt.alloc();
    let mut image = Image::new(alloc)?;
    let full = Records(1023, Plain(1));
    let steps = [
        Record(Mount),
        full,
        Roll(2),
        full,
        Roll(1),
        Records(107, Placed(17)),
        Roll(5),
        full,
    ];
    image.rebuild(alloc, &steps)?;
    let all = Ok((1 + 3 * 1023 + 107, 4, 12_288));
    assert_eq!(rt; told(alloc, &mut image), all);
    image.step(alloc, Copy(4098, 12_288))?;
    assert_eq!(rt; told(alloc, &mut image), all);
    Ok(())
}
