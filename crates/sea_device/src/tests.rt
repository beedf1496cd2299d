ghost use Rattle.std.specs.Prelude.{◌<◌, length};

use super::*;
use sea_base::{Block, Data, NoMemory, Nths, Paddr};
use std::process::Abort;
use std::test::Fail;

// Called through the bound, as the code above this crate calls it.
fn taken<S: Source>(source: &mut S, into: &mut [u8]) -> Result<usize, Failed>
    requires { 0 < length into.old }
{
    source.take(into)
}

fn put<S: Sink>(sink: &mut S, bytes: &[u8]) -> Result<usize, Failed>
    requires { 0 < length bytes.now }
{
    sink.put(bytes)
}

#[test]
fn a_steady_device_never_fails(rt: HostRuntime) -> Result<(), Fail> {
    let mut device = SteadyDevice::new(rt.alloc(), 2)?;
    let Ok(()) = device.write(Paddr(1), &[7; 4096]) else {
        unreachable!()
    };
    let Ok(()) = device.sync() else {
        unreachable!()
    };
    let mut block = [1; 4096];
    let Ok(()) = device.read(Paddr(1), &mut block) else {
        unreachable!()
    };
    assert_eq!(rt; block.as_slice(), [7; 4096].as_slice());
    assert_eq!(rt; count(device.bytes(), 7), 4096);
    assert_eq!(rt; count(device.bytes(), 0), 4096);
    Ok(())
}

#[test]
fn a_source_gives_pieces(rt: HostRuntime) -> Result<(), Fail> {
    let alloc = rt.alloc();
    let mut fails = Nths::new(alloc);
    fails.push(2)?;
    let mut source = MemSource::new(Data::new(alloc, b"abcd")?, 3, fails);
    let mut into = [0; 5];
    assert_eq!(rt; taken(&mut source, &mut into), Ok(3));
    assert_eq!(rt; taken(&mut source, &mut into), Err(Failed));
    assert_eq!(rt; taken(&mut source, &mut into), Ok(1));
    assert_eq!(rt; into, *b"dbc\0\0");
    assert_eq!(rt; taken(&mut source, &mut into), Ok(0));
    Ok(())
}

#[test]
fn a_sink_takes_what_it_has_room_for(rt: HostRuntime) -> Result<(), Fail> {
    let alloc = rt.alloc();
    let mut fails = Nths::new(alloc);
    fails.push(1)?;
    let mut sink = MemSink::new(alloc, 5, fails)?;
    assert_eq!(rt; put(&mut sink, b"abc"), Err(Failed));
    assert_eq!(rt; put(&mut sink, b"abc"), Ok(3));
    assert_eq!(rt; put(&mut sink, b"def"), Ok(2));
    assert_eq!(rt; put(&mut sink, b"f"), Err(Failed));
    assert_eq!(rt; sink.taken(), b"abcde".as_slice());
    Ok(())
}

fn count(bytes: &[u8], value: u8) -> usize {
    bytes.iter().filter(|byte| **byte == value).count()
}

// A crash that leaves blocks which are unsynced.
fn crashed(
    rt: &impl Abort,
    device: &MemDevice,
    moment: u64,
    chosen: &Chosen,
) -> Result<MemDevice, NoMemory> {
    assert!(rt; moment <= device.clock());
    for (at, _block) in chosen.items() {
        assert!(rt; device.is_unsynced(moment, *at));
    }
    device.crash(moment, chosen)
}

#[test]
fn calls_fail_where_listed_or_without_room(rt: HostRuntime) -> Result<(), Fail> {
    let alloc = rt.alloc();
    let mut fails = Fails::none(alloc);
    fails.reads.push(1)?;
    fails.writes.push(2)?;
    let mut device = MemDevice::new(alloc, 2, 2, 4096, fails)?;
    let mut block = [1; 4096];
    assert_eq!(rt; device.read(Paddr(0), &mut block), Err(Failed));
    assert_eq!(rt; device.write(Paddr(0), &[7; 4096]), Ok(()));
    assert_eq!(rt; device.write(Paddr(0), &[8; 4096]), Err(Failed));
    assert_eq!(rt; device.sync(), Ok(()));
    assert_eq!(rt; device.sync(), Err(Failed));
    assert_eq!(rt; device.clock(), 2);
    assert_eq!(rt; device.faults(), 3);
    Ok(())
}

#[test]
fn a_crash_keeps_what_was_synced(rt: HostRuntime) -> Result<(), Fail> {
    let alloc = rt.alloc();
    let mut device = MemDevice::new(alloc, 2, 3, 8192, Fails::none(alloc))?;
    device.write(Paddr(0), &[7; 4096])?;
    device.sync()?;
    device.write(Paddr(1), &[8; 4096])?;
    let mut chosen = Chosen::new(alloc);
    for (moment, sevens) in [(0, 0), (1, 0), (2, 4096), (3, 4096)] {
        let left = crashed(&rt, &device, moment, &chosen)?;
        assert_eq!(rt; count(left.bytes(), 7), sevens);
        assert_eq!(rt; count(left.bytes(), 8), 0);
    }
    chosen.push((Paddr(1), Block::new(alloc, &[9; 4096])?))?;
    let left = crashed(&rt, &device, 3, &chosen)?;
    assert_eq!(rt; count(left.bytes(), 7), 4096);
    assert_eq!(rt; count(left.bytes(), 9), 4096);
    Ok(())
}

#[test]
fn a_refit_keeps_the_bytes(rt: HostRuntime) -> Result<(), Fail> {
    let alloc = rt.alloc();
    let mut device = MemDevice::new(alloc, 1, 1, 4096, Fails::none(alloc))?;
    device.write(Paddr(0), &[7; 4096])?;
    let device = match device.refit(1, 4096, Fails::none(alloc)) {
        Ok(device) => device,
        Err((_device, error)) => return Err(error.into()),
    };
    assert_eq!(rt; device.clock(), 0);
    let left = crashed(&rt, &device, 0, &Chosen::new(alloc))?;
    assert_eq!(rt; count(left.bytes(), 7), 4096);
    Ok(())
}
