//! Bytes read and written in place, and writes taken back.
ghost use Rattle.std.specs.Prelude.{◌≡◌, ◌+◌, ◌≤◌, ◌<◌, ◌^◌, IfOk, OnOk, OnErr};
ghost use Rattle.std.specs.Prelude.{length, take, drop, replicate, ◌++◌};
ghost use Rattle.sea_object.specs.Answer.{written};
ghost use Rattle.sea_object.specs.Undo.{Fits, restored};

use sea_base::{Data, NoMemory};
use std::alloc::{AllocError, Global};

/// What a write replaced: how many bytes there were, and those that it wrote over.
#[derive(Debug, Drop)]
pub(crate) struct Saved {
    pub(crate) size: usize,
    pub(crate) offset: usize,
    pub(crate) bytes: Data,
}

/// The bytes from an offset on, up to a length and to the end.
pub(crate) fn part(bytes: &[u8], offset: usize, length: usize) -> &[u8]
    ensures { result.now ≡ take length (drop offset bytes.now) }
{
    let rest = &bytes[offset.min(bytes.len())..];
    &rest[..length.min(rest.len())]
}

/// Writes bytes from an offset on, with zeros before them where there were fewer, and answers what
/// takes this back. After want of memory all is as before.
pub(crate) fn write_at(bytes: &mut Vec<u8>, offset: usize, source: &[u8]) -> Result<Saved, NoMemory>
    requires { offset < 2 ^ 63 }
    ensures ok { OnOk result (bytes.new.items ≡ written offset source.now bytes.old.items) }
    ensures saved { IfOk result (λ saved.
        Fits saved bytes.new.items × (restored saved bytes.new.items ≡ bytes.old.items)) }
    ensures err { OnErr result (bytes.new.items ≡ bytes.old.items) }
{
    let size = bytes.len();
    let end = offset + source.len();
    let saved = Saved {
        size,
        offset: offset.min(size),
        bytes: Data::new(*bytes.allocator(), part(bytes, offset, source.len()))?,
    };
    bytes.resize(size.max(end), 0)?;
    overwrite(bytes.as_mut_slice(), offset, source);
    Ok(saved)
}

/// Takes a write back.
pub(crate) fn restore(bytes: &mut Vec<u8>, saved: &Saved)
    requires { Fits saved.now bytes.old.items }
    ensures { bytes.new.items ≡ restored saved.now bytes.old.items }
{
    bytes.truncate(saved.size);
    overwrite(bytes.as_mut_slice(), saved.offset, saved.bytes.bytes());
}

fn overwrite(bytes: &mut [u8], offset: usize, source: &[u8])
    requires { offset + length source.now ≤ length bytes.old }
    ensures { bytes.new ≡ written offset source.now bytes.old }
{
    bytes[offset..offset + source.len()].copy_from_slice(source);
}

/// As many zeros as the number says.
pub(crate) fn zeros(alloc: Global, count: usize) -> Result<Vec<u8>, AllocError>
    ensures { IfOk result (λ made. made.items ≡ replicate count 0) }
{
    let mut made = Vec::new(alloc);
    made.resize(count, 0)?;
    Ok(made)
}

/// Zeros with bytes behind them.
pub(crate) fn behind_zeros(alloc: Global, count: usize, bytes: &[u8]) -> Result<Vec<u8>, AllocError>
    ensures { IfOk result (λ made. made.items ≡ replicate count 0 ++ bytes.now) }
{
    let mut made = zeros(alloc, count)?;
    made.extend_from_slice(bytes)?;
    Ok(made)
}
