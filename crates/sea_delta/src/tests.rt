//! Splices of blocks, beside bytes written out.

use crate::apply;
use sea_base::{BLOCK_BYTES, Block, Data, Delta, NoMemory};
use std::alloc::Global;
use std::test::Fail;

// A splice whose new bytes are so many of one value.
fn delta(alloc: Global, cut: u16, gone: u16, len: usize, byte: u8) -> Result<Delta, NoMemory> {
    let put = Data::from_vec(vec![in alloc; byte; len]?)?;
    Ok(Delta { cut, gone, put })
}

fn zeros(alloc: Global) -> Result<Block, NoMemory> {
    Block::new(alloc, &[0; BLOCK_BYTES])
}

#[test]
fn splices_are_made_one_after_the_other(rt: HostRuntime) -> Result<(), Fail> {
    let alloc = rt.alloc();
    let mut changes = Vec::new(alloc);
    for (cut, gone, len, byte) in [(0, 0, 3, 1), (1, 1, 2, 2), (0, 1, 0, 3), (4095, 1, 1, 4)] {
        changes.push(delta(alloc, cut, gone, len, byte)?)?;
    }
    let made = apply(alloc, &zeros(alloc)?, &changes)?.ok_or("they have room")?;
    assert_eq!(rt; &made.bytes()[..5], [2, 2, 1, 0, 0].as_slice());
    assert_eq!(rt; made.bytes()[4095], 4);
    Ok(())
}

#[test]
fn a_splice_ends_with_its_block(rt: HostRuntime) -> Result<(), Fail> {
    let alloc = rt.alloc();
    let block = zeros(alloc)?;
    for (cut, gone, len, fits) in [
        (0, 4096, 4096, true),
        (4096, 0, 0, true),
        (1, 4096, 0, false),
        (4096, 1, 0, false),
        (1, 0, 4096, false),
        (u16::MAX, u16::MAX, 0, false),
    ] {
        let change = delta(alloc, cut, gone, len, 7)?;
        let made = apply(alloc, &block, std::slice::from_ref(&change))?;
        assert_eq!(rt; made.is_some(), fits);
    }
    Ok(())
}

#[test]
fn a_thousand_splices_are_made(rt: HostRuntime) -> Result<(), Fail> {
    let alloc = rt.alloc();
    let mut changes = Vec::new(alloc);
    for at in 0..1000 {
        changes.push(delta(alloc, at, 0, 1, 5)?)?;
    }
    let made = apply(alloc, &zeros(alloc)?, &changes)?.ok_or("they have room")?;
    assert_eq!(rt; made.bytes()[999], 5);
    assert_eq!(rt; made.bytes()[1000], 0);
    Ok(())
}
