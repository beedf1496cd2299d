use crate::*;
use sea_base::{Block, Data, Name, Nths, Paddr};
use sea_device::{
    Chosen, Device, Fails, MemDevice, MemSink, MemSource, Sink, Source, SteadyDevice, SteadySource,
};
use std::alloc::Global;
use std::process::Abort;
use std::test::Fail;

const HELLO: &[u8] = b"1 write a 0 x68656c6c6f ; read a 0 5\n";

const HELLO_TEXT: &[u8] = b"1 1 done - x68656c6c6f\nend 1 0\n";

const THREE: &[u8] = b"1 write a 0 x41\n1 write b 0 x42\n1 read a 0 1\n";

const THREE_TEXT: &[u8] = b"1 1 done -\n1 2 done -\n1 3 done x41\nend 3 0\n";

// Runs the command `steps` with ample memory, and answers the status, what was printed and the device.
fn steps<D: Device + Drop>(
    alloc: Global,
    device: D,
    script: &[u8],
) -> Result<(u8, Vec<u8>, D), Fail> {
    let mut input = SteadySource::new(Data::new(alloc, script)?);
    steps_over(alloc, device, &mut input)
}

fn steps_over<D: Device + Drop, I: Source>(
    alloc: Global,
    device: D,
    input: &mut I,
) -> Result<(u8, Vec<u8>, D), Fail> {
    let mut out = MemSink::new(alloc, 4096, Nths::new(alloc))?;
    let (status, device) = steps_into(alloc, device, input, &mut out)?;
    Ok((status, out.taken().to_vec(alloc)?, device))
}

fn steps_into<D: Device + Drop, I: Source, O: Sink>(
    alloc: Global,
    device: D,
    input: &mut I,
    out: &mut O,
) -> Result<(u8, D), Fail> {
    let words = vec![in alloc; String::from_str(alloc, "steps")?]?;
    let (status, device) = tool(alloc, &words, input, out, device);
    Ok((status.0, device))
}

// Whether the object `a` that the device opens to has these bytes; one that is absent has none.
fn holds<D: Device>(alloc: Global, device: &mut D, bytes: &[u8]) -> Result<bool, Fail> {
    let trail = read_trail(alloc, device)?;
    match trail.objects.get(&Name::new(alloc, b"a")?) {
        None => Ok(bytes.is_empty()),
        Some(object) => Ok(object.bytes() == bytes),
    }
}

fn listed(alloc: Global, nth: u64) -> Result<Nths, Fail> {
    let mut nths = Nths::new(alloc);
    nths.push(nth)?;
    Ok(nths)
}

// Each row: the blocks of the device, the script, the status, what is printed, and the bytes of `a` then.
const RUNS: [(u32, &[u8], u8, &[u8], &[u8]); 7] = [
    (2049, HELLO, 0, HELLO_TEXT, b"hello"),
    (9, THREE, 0, THREE_TEXT, b"A"),
    (
        1,
        b"1 write a 0 x41\n# one block is all there is\n\n1 write a 0 x42",
        0,
        b"1 1 done -\n1 2 full 1 0 0\nend 2 0\n",
        b"A",
    ),
    (0, b"1 write a 0 x41", 0, b"1 1 full 1 0 0\nend 1 0\n", b""),
    (2, b"1 touch a", 2, b"script 1 NotBuilt\n", b""),
    (
        2,
        b"1 write a 16777215 x4142",
        2,
        b"script 1 NotBuilt\n",
        b"",
    ),
    (
        2,
        b"# a\n1 write a 0 x41\n1 touch a",
        2,
        b"script 3 NotBuilt\n",
        b"",
    ),
];

fn runs_so(
    alloc: Global,
    blocks: u32,
    script: &[u8],
    status: u8,
    text: &[u8],
    bytes: &[u8],
) -> Result<bool, Fail> {
    let device = SteadyDevice::new(alloc, blocks)?;
    let (ended, printed, mut device) = steps(alloc, device, script)?;
    Ok(ended == status && printed.as_slice() == text && holds(alloc, &mut device, bytes)?)
}

#[test]
fn each_script_ends_and_prints_so(rt: HostRuntime) -> Result<(), Fail> {
    for (blocks, script, status, text, bytes) in RUNS {
        let so = runs_so(rt.alloc(), blocks, script, status, text, bytes)?;
        assert!(rt; so, "over {blocks} blocks");
    }
    Ok(())
}

#[test]
fn a_second_run_reads_what_the_first_wrote(rt: HostRuntime) -> Result<(), Fail> {
    let device = SteadyDevice::new(rt.alloc(), 9)?;
    let (_, _, device) = steps(rt.alloc(), device, HELLO)?;
    let script = b"1 read a 1 3 ; write a 7 x21\n1 read a 0 9";
    let (status, text, mut device) = steps(rt.alloc(), device, script)?;
    assert_eq!(rt; status, 0);
    let said = b"1 1 done x656c6c -\n1 2 done x68656c6c6f000021\nend 2 0\n";
    assert_eq!(rt; text.as_slice(), said.as_slice());
    assert!(rt; holds(rt.alloc(), &mut device, b"hello\0\0!")?);
    Ok(())
}

#[test]
fn an_input_that_is_too_long_is_refused_at_line_0(rt: HostRuntime) -> Result<(), Fail> {
    let newlines = Data::from_vec(vec![in rt.alloc(); 10; 67_108_865]?)?;
    let device = SteadyDevice::new(rt.alloc(), 1)?;
    let (status, text, _) = steps_over(rt.alloc(), device, &mut SteadySource::new(newlines))?;
    assert_eq!(rt; status, 2);
    assert_eq!(rt; text.as_slice(), b"script 0 NotBuilt\n".as_slice());
    Ok(())
}

#[test]
fn a_source_that_fails_is_told(rt: HostRuntime) -> Result<(), Fail> {
    let hello = Data::new(rt.alloc(), HELLO)?;
    let mut input = MemSource::new(hello, 7, listed(rt.alloc(), 2)?);
    let device = SteadyDevice::new(rt.alloc(), 9)?;
    let (status, text, _) = steps_over(rt.alloc(), device, &mut input)?;
    assert_eq!(rt; status, 6);
    assert_eq!(rt; text.as_slice(), b"read fault\n".as_slice());
    Ok(())
}

#[test]
fn a_sink_that_fails_is_told_by_the_status(rt: HostRuntime) -> Result<(), Fail> {
    let hello = Data::new(rt.alloc(), HELLO)?;
    let mut input = MemSource::new(hello, 7, Nths::new(rt.alloc()));
    let mut out = MemSink::new(rt.alloc(), 64, listed(rt.alloc(), 1)?)?;
    let device = SteadyDevice::new(rt.alloc(), 9)?;
    let (status, mut device) = steps_into(rt.alloc(), device, &mut input, &mut out)?;
    assert_eq!(rt; status, 7);
    assert!(rt; out.taken().is_empty());
    assert!(rt; holds(rt.alloc(), &mut device, b"hello")?);
    Ok(())
}

// Each row: which read, write and sync of the device fails, the status, what is printed, and the bytes of `a` then.
const FAULTS: [(u64, u64, u64, u8, &[u8], &[u8]); 8] = [
    (1, 0, 0, 3, b"device fault\n", b""),
    (2, 0, 0, 0, THREE_TEXT, b"A"),
    (0, 1, 0, 3, b"end 0 0\ndevice fault\n", b""),
    (0, 2, 0, 0, THREE_TEXT, b"A"),
    (0, 0, 1, 3, b"device fault\n", b""),
    (0, 0, 2, 3, b"end 0 0\ndevice fault\n", b"A"),
    (0, 0, 3, 0, THREE_TEXT, b"A"),
    (0, 0, 0, 0, THREE_TEXT, b"A"),
];

// The calls of a device that fail.
fn fails(alloc: Global, read: u64, write: u64, sync: u64) -> Result<Fails, Fail> {
    Ok(Fails {
        reads: listed(alloc, read)?,
        writes: listed(alloc, write)?,
        syncs: listed(alloc, sync)?,
    })
}

// Whether a run over a device with these failures ends and prints so, and leaves an object `a` with these bytes.
fn fails_so(
    alloc: Global,
    fails: Fails,
    status: u8,
    text: &[u8],
    bytes: &[u8],
) -> Result<bool, Fail> {
    let device = MemDevice::new(alloc, 9, 9, 65_536, fails)?;
    let (ended, printed, device) = steps(alloc, device, THREE)?;
    let faults = if status == 0 { 0 } else { 1 };
    let told = ended == status && printed.as_slice() == text && device.faults() == faults;
    let refitted = device.refit(9, 65_536, Fails::none(alloc)).ok();
    Ok(told && holds(alloc, &mut refitted.ok_or("ample memory")?, bytes)?)
}

#[test]
fn each_call_of_the_device_fails_once(rt: HostRuntime) -> Result<(), Fail> {
    for (read, write, sync, status, text, bytes) in FAULTS {
        let fails = fails(rt.alloc(), read, write, sync)?;
        let so = fails_so(rt.alloc(), fails, status, text, bytes)?;
        assert!(rt; so, "read {read}, write {write}, sync {sync}");
    }
    Ok(())
}

// What a crash leaves at a moment, where no unsynced block is kept.
fn crashed_bare(
    rt: &impl Abort,
    alloc: Global,
    device: &MemDevice,
    moment: u64,
) -> Result<MemDevice, Fail> {
    assert!(rt; moment <= device.clock());
    Ok(device.crash(moment, &Chosen::new(alloc))?)
}

// What a crash leaves at a moment, where the first block alone is kept.
fn crashed_with_first(
    rt: &impl Abort,
    alloc: Global,
    device: &MemDevice,
    moment: u64,
) -> Result<MemDevice, Fail> {
    assert!(rt; moment <= device.clock());
    let bytes = device.bytes();
    assert!(rt; bytes.len() >= 4096);
    let first = Paddr(0);
    assert!(rt; device.is_unsynced(moment, first));
    let mut chosen = Chosen::new(alloc);
    chosen.push((first, Block::new(alloc, &bytes[..4096])?))?;
    Ok(device.crash(moment, &chosen)?)
}

#[test]
fn a_crash_before_the_last_sync_leaves_hello_or_no_object(rt: HostRuntime) -> Result<(), Fail> {
    let device = MemDevice::new(rt.alloc(), 2049, 3, 8192, Fails::none(rt.alloc()))?;
    let (_, _, device) = steps(rt.alloc(), device, HELLO)?;
    assert_eq!(rt; device.clock(), 3);
    let mut lost = crashed_bare(&rt, rt.alloc(), &device, 2)?;
    assert!(rt; holds(rt.alloc(), &mut lost, b"")?);
    let mut kept = crashed_with_first(&rt, rt.alloc(), &device, 2)?;
    assert!(rt; holds(rt.alloc(), &mut kept, b"hello")?);
    let mut synced = crashed_bare(&rt, rt.alloc(), &device, 3)?;
    assert!(rt; holds(rt.alloc(), &mut synced, b"hello")?);
    Ok(())
}
