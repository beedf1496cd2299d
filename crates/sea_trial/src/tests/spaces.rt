ghost use Rattle.std.specs.Prelude.{IsTrue};

use sea_base::{BLOCK_BYTES, Block, Laddr, MapSpace, NoMemory, Nths, Space, SpaceFault};
use std::alloc::Global;
use std::test::Fail;

// A block of one byte, again and again.
fn filled(alloc: Global, byte: u8) -> Result<Block, NoMemory> {
    Block::new(alloc, &[byte; BLOCK_BYTES])
}

// The first byte at an address, read through the bound, as the code above this crate reads it.
fn first_byte<S: Space>(space: &mut S, at: Laddr) -> Result<Option<u8>, SpaceFault>
    requires { IsTrue (S.ready space.old) }
{
    match space.get(at)? {
        Some(block) => Ok(Some(block.bytes()[0])),
        None => Ok(None),
    }
}

#[test]
fn a_space_shows_its_changes(rt: HostRuntime) -> Result<(), Fail> {
    let alloc = rt.alloc();
    let mut space = MapSpace::new(alloc, Nths::new(alloc));
    let first = space.alloc(2)?;
    let next = space.alloc(1)?;
    assert_eq!(rt; (first, next), (Laddr(2), Laddr(4)));
    space.put(first, filled(alloc, 7)?)?;
    assert_eq!(rt; first_byte(&mut space, first)?, Some(7));
    assert_eq!(rt; first_byte(&mut space, next)?, None);
    space.drop_at(first)?;
    assert_eq!(rt; first_byte(&mut space, first)?, None);
    Ok(())
}

#[test]
fn a_listed_get_fails_once(rt: HostRuntime) -> Result<(), Fail> {
    let alloc = rt.alloc();
    let mut fails = Nths::new(alloc);
    fails.push(2)?;
    let mut space = MapSpace::new(alloc, fails);
    let at = space.alloc(1)?;
    space.put(at, filled(alloc, 7)?)?;
    assert_eq!(rt; first_byte(&mut space, at), Ok(Some(7)));
    assert_eq!(rt; first_byte(&mut space, at), Err(SpaceFault::DeviceFault));
    assert_eq!(rt; space.faults(), 1);
    assert_eq!(rt; first_byte(&mut space, at), Ok(Some(7)));
    assert_eq!(rt; space.faults(), 1);
    Ok(())
}
