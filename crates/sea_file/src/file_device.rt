//! An image in a file.
ghost use Rattle.std.specs.Prelude.{◌≡◌, ◌+◌, ◌*◌, ◌^◌, ◌<◌, None, false, length, IfOk};
ghost use Rattle.std.proofs.lemmas.Bool.{false≢true};

use crate::faults::counted;
use sea_base::{BLOCK_BYTES, Paddr};
use sea_device::{Device, Failed};
use std::fs::{File, OpenOptions};
use std::io;
use std::io::ErrorKind;
use std::os::unix::fs::FileExt;
use std::path::Path;
use std::rt::Files;

/// The blocks of a device, however long its file is.
const BLOCKS: u32 = 1 << 24;

/// A file as a device of 16,777,216 blocks, with zeros past the file's end. It tells no bytes and no
/// crash images, since no contract can say what a file holds. Nobody else has it open as a device: it
/// has the lock on the whole file until it is dropped.
#[derive(Drop)]
pub struct FileDevice {
    file: File,
    faults: u64,
}

impl FileDevice {
    /// Opens the file to read and write it, and takes its lock. With `make` an absent file is made
    /// empty. Fails where the system refuses one of these, or another open has the lock.
    pub fn open(rt: &impl Files<File = File>, path: &str, make: bool) -> Result<FileDevice, Failed>
        ensures faults { IfOk result (λ made. ⟦<FileDevice as Device>⟧.faults made ≡ 0) }
    {
        match open_locked(rt, path, make) {
            Ok(file) => Ok(FileDevice { file, faults: 0 }),
            Err(_) => Err(Failed),
        }
    }

    /// How many calls have failed. The count stands still at 2^64 - 1.
    pub fn faults(&self) -> u64
        ensures { result ≡ ⟦<FileDevice as Device>⟧.faults self.now }
    {
        self.faults
    }
}

impl Device for FileDevice {
    ghost size = { λ d. 16777216 };

    ghost contents = { λ d. None };

    ghost tells_images = { λ d. false };

    ghost may_leave = { λ d c. ⊥ };

    ghost clock = { λ d. 0 };

    ghost left_since = { λ d t c. ⊥ };

    ghost faults = { λ d. d.faults };

    ghost whole = { λ d b is. cc };

    ghost images_whole = { λ d c left. absurd left };

    ghost now_among = { λ d b told is. absurd (false≢true told) };

    ghost counts_now = { λ d t c le left. left };

    ghost only_now = { λ d c left. left };

    fn blocks(&self) -> u32 {
        BLOCKS
    }

    /// Fails where the system's reads do.
    fn read(&mut self, at: Paddr, into: &mut [u8]) -> Result<(), Failed> {
        let done = read_padded(&self.file, into, start_of(at));
        counted(&mut self.faults, done)
    }

    /// Fails where the system's writes do, or one of them takes nothing.
    fn write(&mut self, at: Paddr, bytes: &[u8]) -> Result<(), Failed> {
        let done = self.file.write_all_at(bytes, start_of(at));
        counted(&mut self.faults, done)
    }

    /// Has the system bring the file's bytes and its length to the disk.
    fn sync(&mut self) -> Result<(), Failed> {
        let done = self.file.sync_data();
        counted(&mut self.faults, done)
    }
}

// Where a block starts in the file.
fn start_of(at: Paddr) -> u64
    ensures { result ≡ 4096 * at.0 }
{
    u64::from(at.0) * BLOCK_BYTES as u64
}

// The file, open and locked.
fn open_locked(rt: &impl Files<File = File>, path: &str, make: bool) -> io::Result<File> {
    let file = OpenOptions::new()
        .read(true)
        .write(true)
        .create(make)
        .open(rt, path)?;
    file.try_lock()?;
    if make {
        sync_folder(rt, path)?;
    }
    Ok(file)
}

// Has the system bring the names in the file's folder to the disk, so that a made file stays there.
fn sync_folder(rt: &impl Files<File = File>, path: &str) -> io::Result<()> {
    let folder = match Path::new(path).parent() {
        Some(folder) if !folder.as_str().is_empty() => folder,
        _ => Path::new("."),
    };
    File::open(rt, folder)?.sync_all()
}

/// Fills `into` with the file's bytes from an offset on, and with zeros past its end. A read that a
/// signal interrupted is made again.
pub fn read_padded(file: &impl FileExt, into: &mut [u8], from: u64) -> io::Result<()>
    requires { from + length into.old < 2 ^ 64 }
{
    let mut filled = 0;
    for _ in 0..u64::MAX {
        if filled == into.len() {
            return Ok(());
        }
        match file.read_at(&mut into[filled..], from + filled as u64) {
            Ok(0) => {
                into[filled..].fill(0);
                return Ok(());
            }
            Ok(count) => filled += count,
            Err(e) if e.kind() == ErrorKind::Interrupted => {}
            Err(e) => return Err(e),
        }
    }
    Err(io::Error::from(ErrorKind::Interrupted))
}
