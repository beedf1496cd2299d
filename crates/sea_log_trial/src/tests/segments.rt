ghost use Rattle.std.specs.Prelude.{◌<◌};
ghost use Rattle.sea_segment.specs.Header.{IsHeader};

use crate::fresh::{first_header, fresh_super};
use sea_base::{
    BLOCK_BYTES, Block, Commit, Digest, Laddr, NoMemory, PRoot, Paddr, Root, Sum, Tail, digest_of,
    put_bytes, put_u32, u64_at,
};
use sea_segment::{AnySuper, Header, SegState, Super, Table};
use std::alloc::Global;
use std::test::Fail;

// The block with one bit of a byte changed.
fn flipped(alloc: Global, block: &Block, at: usize) -> Result<Block, NoMemory>
    requires { at < 4096 }
{
    let mut bytes = block.bytes().to_vec(alloc)?;
    bytes[at] ^= 1;
    Block::from_vec(bytes)
}

// A block that begins as a superblock with these numbers does, with its digest.
fn numbered(alloc: Global, format: u32, segments: u32) -> Result<Block, NoMemory> {
    let mut bytes = [0; BLOCK_BYTES];
    put_bytes(&mut bytes, 0, b"SEASUPER");
    put_u32(&mut bytes, 8, format);
    put_u32(&mut bytes, 12, segments);
    let digest = digest_of(&bytes);
    put_bytes(&mut bytes, 64, &digest.0);
    Block::new(alloc, &bytes)
}

// The header of a segment in use, with a number in each field.
fn later_header() -> Header
    ensures { IsHeader result }
{
    let mut prev = [0; 32];
    for (at, byte) in prev.iter_mut().enumerate() {
        *byte = at as u8;
    }
    Header {
        segment: 3,
        mount: 2,
        seq: 5,
        commit: Commit(77),
        tail: Tail {
            seq: 4,
            place: Paddr(6150),
        },
        root: Root {
            lba: PRoot {
                at: Paddr(6200),
                height: 2,
                sum: Sum(0x1122_3344_5566_7788),
            },
            owners: PRoot {
                at: Paddr(6201),
                height: 1,
                sum: Sum(9),
            },
            next: Laddr(4100),
        },
        prev: Digest(prev),
    }
}

#[test]
fn the_superblock_of_six_segments(rt: HostRuntime) -> Result<(), Fail> {
    let alloc = rt.alloc();
    let block = fresh_super().spell(alloc)?;
    let bytes = block.bytes();
    assert_eq!(rt; &bytes[..16], b"SEASUPER\0\0\0\x01\0\0\0\x06".as_slice());
    assert_eq!(rt; u64_at(bytes, 64), 0x5812_bdac_5bd9_4333);
    assert_eq!(rt; Super::read(&block), Some(fresh_super()));
    Ok(())
}

#[test]
fn another_format_is_told(rt: HostRuntime) -> Result<(), Fail> {
    let block = numbered(rt.alloc(), 2, 6)?;
    assert_eq!(rt; u64_at(block.bytes(), 64), 0x39d0_3aa7_a30f_b0d1);
    let found = AnySuper {
        format: 2,
        segments: 6,
    };
    assert_eq!(rt; AnySuper::read(&block), Some(found));
    assert_eq!(rt; Super::read(&block), None);
    Ok(())
}

#[test]
fn an_image_has_six_segments_to_8191(rt: HostRuntime) -> Result<(), Fail> {
    for (segments, is_right) in [(5, false), (6, true), (8191, true), (8192, false)] {
        let block = numbered(rt.alloc(), 1, segments)?;
        assert_eq!(rt; Super::read(&block).is_some(), is_right, "{segments}");
        assert_eq!(rt; AnySuper::read(&block).is_some(), true, "{segments}");
    }
    Ok(())
}

#[test]
fn the_header_of_a_segment_in_use(rt: HostRuntime) -> Result<(), Fail> {
    let alloc = rt.alloc();
    let block = later_header().spell(alloc)?;
    assert_eq!(rt; u64_at(block.bytes(), 144), 0x35f4_cbc1_07dc_9560);
    assert_eq!(rt; Header::read(&block), Some(later_header()));
    assert_eq!(rt; Super::read(&block), None);
    let first = first_header().spell(alloc)?;
    assert_eq!(rt; u64_at(first.bytes(), 144), 0x8743_f480_f73f_381d);
    assert_eq!(rt; Header::read(&first), Some(first_header()));
    Ok(())
}

#[test]
fn a_byte_changed_anywhere(rt: HostRuntime) -> Result<(), Fail> {
    let alloc = rt.alloc();
    let superblock = fresh_super().spell(alloc)?;
    let header = later_header().spell(alloc)?;
    for at in 0..180 {
        let changed = flipped(alloc, &superblock, at)?;
        assert_eq!(rt; AnySuper::read(&changed), None, "{at}");
        let changed = flipped(alloc, &header, at)?;
        assert_eq!(rt; Header::read(&changed), None, "{at}");
    }
    let changed = flipped(alloc, &superblock, BLOCK_BYTES - 1)?;
    assert_eq!(rt; AnySuper::read(&changed), None);
    let changed = flipped(alloc, &header, BLOCK_BYTES - 1)?;
    assert_eq!(rt; Header::read(&changed), None);
    Ok(())
}

#[test]
fn the_table_picks_the_least_empty(rt: HostRuntime) -> Result<(), Fail> {
    let mut table = Table::new(rt.alloc(), 8191)?;
    assert_eq!(rt; table.len(), 8191);
    assert_eq!(rt; (table.empty(), table.pick_empty()), (8191, Some(0)));
    set(&mut table, 0, SegState::Closed { seq: 1 });
    set(&mut table, 1, SegState::Active { seq: 2 });
    assert_eq!(rt; (table.empty(), table.pick_empty()), (8189, Some(2)));
    set(&mut table, 0, SegState::Empty);
    assert_eq!(rt; (table.empty(), table.pick_empty()), (8190, Some(0)));
    assert_eq!(rt; state(&table, 1), Some(SegState::Active { seq: 2 }));
    Ok(())
}

#[test]
fn the_victim_has_the_fewest_live_blocks(rt: HostRuntime) -> Result<(), Fail> {
    let mut table = Table::new(rt.alloc(), 6)?;
    assert_eq!(rt; table.victim(9), None);
    for segment in 0..4u32 {
        let seq = u64::from(segment) + 1;
        set(&mut table, segment, SegState::Closed { seq });
    }
    set(&mut table, 4, SegState::Active { seq: 5 });
    for segment in [0, 0, 1, 2] {
        add_live(&mut table, segment);
    }
    assert_eq!(rt; table.victim(4), Some(1));
    assert_eq!(rt; table.victim(5), Some(3));
    assert_eq!(rt; table.victim(2), Some(0));
    assert_eq!(rt; table.victim(1), None);
    take_live(&mut table, 0);
    assert_eq!(rt; (live(&table, 0), table.victim(4)), (1, Some(0)));
    Ok(())
}

#[test]
fn a_full_segment_is_no_victim(rt: HostRuntime) -> Result<(), Fail> {
    let mut table = Table::new(rt.alloc(), 6)?;
    set(&mut table, 0, SegState::Closed { seq: 1 });
    for _ in 0..1790 {
        add_live(&mut table, 0);
    }
    assert_eq!(rt; (live(&table, 0), table.victim(2)), (1790, Some(0)));
    add_live(&mut table, 0);
    assert_eq!(rt; (live(&table, 0), table.victim(2)), (1791, None));
    Ok(())
}

fn set(table: &mut Table, segment: u32, state: SegState) {
    if segment < table.len() {
        table.set(segment, state);
    }
}

fn state(table: &Table, segment: u32) -> Option<SegState> {
    if segment < table.len() {
        Some(table.state(segment))
    } else {
        None
    }
}

// How many blocks are live, 0 where there is no such segment.
fn live(table: &Table, segment: u32) -> u32 {
    if segment < table.len() {
        table.live(segment)
    } else {
        0
    }
}

fn add_live(table: &mut Table, segment: u32) {
    if segment < table.len() && table.live(segment) < 2047 {
        table.add_live(segment);
    }
}

fn take_live(table: &mut Table, segment: u32) {
    if segment < table.len() && table.live(segment) > 0 {
        table.take_live(segment);
    }
}
