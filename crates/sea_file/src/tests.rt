ghost use Rattle.std.specs.Prelude.{◌≤◌, IfOk};
ghost use Rattle.std.specs.Io.{ReadsAtMost};

use crate::file_device::read_padded;
use crate::{FileDevice, StdSink, StdSource};
use sea_base::Paddr;
use sea_device::{Device, Failed, Sink, Source};
use std::cell::Cell;
use std::fs::{File, OpenOptions};
use std::io::{ErrorKind, Read, Write};
use std::os::unix::fs::FileExt;
use std::process::Abort;
use std::test::Fail;
use std::{env, fs, io, process};

// Where a test's file stands. No other run has one there.
fn path(rt: &HostRuntime, name: &str) -> io::Result<String> {
    let folder = env::temp_dir(rt)?;
    let id = process::id(rt.process());
    Ok(format!(in rt.alloc(); "{}/sea_file-{id}-{name}", folder.as_path().as_str())?)
}

// The bytes of a block through the bound, as the code above this crate reads.
fn block_of(rt: &impl Abort, device: &mut impl Device, at: u32) -> [u8; 4096] {
    let mut block = [1; 4096];
    assert!(rt; at < device.blocks());
    assert_eq!(rt; device.read(Paddr(at), &mut block), Ok(()));
    block
}

fn is_filled(block: &[u8; 4096], byte: u8) -> bool {
    block.iter().all(|one| *one == byte)
}

#[test]
fn a_second_open_reads_what_the_first_wrote(rt: HostRuntime) -> Result<(), Fail> {
    let path = path(&rt, "kept")?;
    assert!(rt;
        FileDevice::open(&rt, &path, false).is_err(),
        "there is no such file"
    );
    let mut device = FileDevice::open(&rt, &path, true)?;
    assert_eq!(rt; device.blocks(), 16_777_216);
    assert_eq!(rt; device.write(Paddr(1), &[7; 8192]), Ok(()));
    assert_eq!(rt; device.write(Paddr(16_777_215), &[9; 4096]), Ok(()));
    assert_eq!(rt; device.sync(), Ok(()));
    drop(device);
    let mut device = FileDevice::open(&rt, &path, false)?;
    for (at, byte) in [(0, 0), (1, 7), (2, 7), (3, 0), (16_777_215, 9)] {
        assert!(rt;
            is_filled(&block_of(&rt, &mut device, at), byte),
            "block {at}"
        );
    }
    drop(device);
    let mut device = FileDevice::open(&rt, &path, true)?;
    assert!(rt;
        is_filled(&block_of(&rt, &mut device, 2), 7),
        "nothing is made anew"
    );
    fs::remove_file(&rt, &path)?;
    Ok(())
}

#[test]
fn zeros_stand_past_the_end(rt: HostRuntime) -> Result<(), Fail> {
    let path = path(&rt, "short")?;
    fs::write(&rt, &path, "12345")?;
    let mut device = FileDevice::open(&rt, &path, false)?;
    let block = block_of(&rt, &mut device, 0);
    assert_eq!(rt; &block[..7], b"12345\0\0".as_slice());
    assert!(rt; block[7..].iter().all(|byte| *byte == 0));
    assert!(rt; is_filled(&block_of(&rt, &mut device, 16_777_215), 0));
    fs::remove_file(&rt, &path)?;
    Ok(())
}

#[test]
fn a_file_cut_short_while_open_reads_zeros(rt: HostRuntime) -> Result<(), Fail> {
    let path = path(&rt, "cut")?;
    let mut device = FileDevice::open(&rt, &path, true)?;
    assert_eq!(rt; device.write(Paddr(0), &[7; 12288]), Ok(()));
    let file = OpenOptions::new().write(true).open(&rt, &path)?;
    file.set_len(6000)?;
    assert!(rt; is_filled(&block_of(&rt, &mut device, 0), 7));
    let block = block_of(&rt, &mut device, 1);
    assert!(rt; block.iter().take(1904).all(|byte| *byte == 7));
    assert!(rt; block.iter().skip(1904).all(|byte| *byte == 0));
    assert!(rt; is_filled(&block_of(&rt, &mut device, 2), 0));
    assert_eq!(rt; device.sync(), Ok(()));
    fs::remove_file(&rt, &path)?;
    Ok(())
}

#[test]
fn one_open_has_the_image(rt: HostRuntime) -> Result<(), Fail> {
    let path = path(&rt, "locked")?;
    let device = FileDevice::open(&rt, &path, true)?;
    assert!(rt; FileDevice::open(&rt, &path, false).is_err());
    assert!(rt; FileDevice::open(&rt, &path, true).is_err());
    drop(device);
    assert!(rt; FileDevice::open(&rt, &path, false).is_ok());
    fs::remove_file(&rt, &path)?;
    Ok(())
}

// The program that runs is a file that nobody may write, root neither.
#[test]
fn what_is_no_file_to_write_is_refused(rt: HostRuntime) -> Result<(), Fail> {
    let folder = env::temp_dir(&rt)?;
    for path in [
        folder.as_path().as_str(),
        "",
        "/proc/self/exe",
        "no/such/folder",
    ] {
        for make in [false, true] {
            assert!(rt; FileDevice::open(&rt, path, make).is_err(), "{path}");
        }
    }
    Ok(())
}

// On this file of the system each write finds no room, and there is nothing to sync.
#[test]
fn failed_calls_are_counted(rt: HostRuntime) -> Result<(), Fail> {
    let mut device = FileDevice::open(&rt, "/dev/full", false)?;
    assert_eq!(rt; device.write(Paddr(0), &[7; 4096]), Err(Failed));
    assert!(rt; is_filled(&block_of(&rt, &mut device, 0), 0));
    assert_eq!(rt; device.sync(), Err(Failed));
    assert_eq!(rt; device.write(Paddr(0), &[7; 4096]), Err(Failed));
    assert_eq!(rt; device.faults(), 3);
    Ok(())
}

// What a call of a file or a stream does: a signal comes, some bytes move, none do, or it fails.
#[derive(Clone, Copy)]
enum Turn {
    Signal,
    Moves(usize),
    Nothing,
    Fails,
}

// A file and a stream whose calls go by a list of turns, and fail behind it.
#[derive(Drop)]
struct Turns {
    turns: [Turn; 5],
    next: Cell<usize>,
}

impl Turns {
    fn new(turns: [Turn; 5]) -> Turns {
        let next = Cell::new(0);
        Turns { turns, next }
    }

    // How many bytes of so many the next call moves.
    fn moved(&self, count: usize) -> io::Result<usize>
        ensures { IfOk result (λ moved. moved ≤ count) }
    {
        let at = self.next.get();
        self.next.set(at.saturating_add(1));
        match self.turns.get(at) {
            Some(Turn::Signal) => Err(io::Error::from(ErrorKind::Interrupted)),
            Some(Turn::Moves(most)) => Ok(count.min(*most)),
            Some(Turn::Nothing) => Ok(0),
            Some(Turn::Fails) | None => Err(io::Error::from(ErrorKind::Other)),
        }
    }

    fn filled(&self, into: &mut [u8]) -> io::Result<usize>
        ensures { ReadsAtMost result into.new }
    {
        let count = self.moved(into.len())?;
        for byte in into.iter_mut().take(count) {
            *byte = 7;
        }
        Ok(count)
    }
}

impl FileExt for Turns {
    fn read_at(&self, buf: &mut [u8], _offset: u64) -> io::Result<usize> {
        self.filled(buf)
    }

    fn write_at(&self, buf: &[u8], _offset: u64) -> io::Result<usize> {
        self.moved(buf.len())
    }
}

impl Read for Turns {
    fn read(&mut self, buf: &mut [u8]) -> io::Result<usize> {
        self.filled(buf)
    }
}

impl Write for Turns {
    fn write(&mut self, buf: &[u8]) -> io::Result<usize> {
        self.moved(buf.len())
    }

    fn flush(&mut self) -> io::Result<()> {
        Ok(())
    }
}

#[test]
fn a_read_goes_on_behind_a_signal(rt: HostRuntime) -> Result<(), Fail> {
    use Turn::{Fails, Moves, Nothing, Signal};
    let mut into = [1; 6];
    read_padded(
        &Turns::new([Signal, Moves(2), Signal, Moves(1), Nothing]),
        &mut into,
        0,
    )?;
    assert_eq!(rt; into, [7, 7, 7, 0, 0, 0]);
    let fails = Turns::new([Signal, Moves(2), Fails, Moves(4), Nothing]);
    assert!(rt; read_padded(&fails, &mut into, 0).is_err());
    Ok(())
}

#[test]
fn streams_go_on_behind_a_signal(rt: HostRuntime) -> Result<(), Fail> {
    use Turn::{Fails, Moves, Nothing, Signal};
    let mut source = StdSource::new(Turns::new([Signal, Moves(2), Fails, Signal, Nothing]));
    let mut into = [1; 3];
    assert_eq!(rt; source.take(&mut into), Ok(2));
    assert_eq!(rt; into, [7, 7, 1]);
    assert_eq!(rt; source.take(&mut into), Err(Failed));
    assert_eq!(rt; source.take(&mut into), Ok(0));
    let mut sink = StdSink::new(Turns::new([Signal, Signal, Moves(2), Nothing, Moves(9)]));
    assert_eq!(rt; sink.put(b"abc"), Ok(2));
    assert_eq!(rt; sink.put(b"abc"), Err(Failed));
    assert_eq!(rt; sink.put(b"abc"), Ok(3));
    Ok(())
}
