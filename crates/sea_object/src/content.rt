//! The bytes of an object.
ghost use Rattle.std.specs.Prelude.{◌≡◌, ◌+◌, ◌≤◌, length, max, [], IfOk, OnOk, OnErr};
ghost use Rattle.sea_object.specs.Answer.{resized, written};
ghost use Rattle.sea_object.specs.Undo.{CanRestore, restored_content};

use crate::patch::{self, Saved};
use sea_base::{Duplicate, NoMemory};
use std::alloc::Global;
use std::marker::Model;

/// Bytes and how many of them count. What is left over behind them lets a cut be taken back
/// without memory.
#[derive(Debug, Drop)]
pub(crate) struct Content {
    bytes: Vec<u8>,
    size: usize,
}

/// How a content was before it was changed.
#[derive(Debug, Drop)]
pub(crate) struct Earlier {
    pub(crate) size: usize,
    pub(crate) replaced: Option<Saved>,
}

impl Model for Content {
    ghost use Rattle.std.specs.Prelude.{◌≤◌, length};
    ghost use Rattle.sea_object.specs.Held.{Stored, stored_code};

    ghost Value = { Stored };

    ghost coded = { stored_code };

    ghost view = { λ c. record { bytes = c.bytes.items; size = c.size } };

    ghost invariant = { λ c. (c.size ≤ length c.bytes.items) × (c.size ≤ 16777216) };
}

impl Content {
    ghost use Rattle.sea_object.specs.Held.{content};

    /// No bytes. It takes no memory.
    pub(crate) fn new(alloc: Global) -> Content
        ensures { result ≡ record { bytes = []; size = 0 } }
    {
        Content {
            bytes: Vec::new(alloc),
            size: 0,
        }
    }

    /// The bytes that count.
    pub(crate) fn bytes(&self) -> &[u8]
        ensures bytes { result.now ≡ content self.now }
        ensures few { length result.now ≤ 16777216 }
    {
        &self.bytes[..self.size]
    }

    /// Writes bytes from an offset on, with zeros before them where there were fewer, and answers
    /// what takes this back. After want of memory all is as before.
    pub(crate) fn write(&mut self, offset: usize, source: &[u8]) -> Result<Earlier, NoMemory>
        requires { offset + length source.now ≤ 16777216 }
        ensures ok { OnOk result (content self.new ≡ written offset source.now (content self.old)) }
        ensures can { IfOk result (λ earlier. CanRestore earlier self.new) }
        ensures earlier { IfOk result (λ earlier. restored_content earlier self.new ≡ self.old) }
        ensures err { OnErr result (self.new ≡ self.old) }
    {
        let size = self.size;
        if offset <= size {
            return self.overwrite(offset, source);
        }
        let filled = patch::behind_zeros(*self.bytes.allocator(), offset - size, source)?;
        self.overwrite(size, filled.as_slice())
    }

    // The same from an offset on that is not past the end.
    fn overwrite(&mut self, offset: usize, source: &[u8]) -> Result<Earlier, NoMemory>
        requires within { offset ≤ self.old.size }
        requires few { offset + length source.now ≤ 16777216 }
        ensures bytes { OnOk result (self.new.bytes ≡ written offset source.now self.old.bytes) }
        ensures size { OnOk result
            (self.new.size ≡ max self.old.size (offset + length source.now)) }
        ensures can { IfOk result (λ earlier. CanRestore earlier self.new) }
        ensures earlier { IfOk result (λ earlier. restored_content earlier self.new ≡ self.old) }
        ensures err { OnErr result (self.new ≡ self.old) }
    {
        let size = self.size;
        let saved = patch::write_at(&mut self.bytes, offset, source)?;
        self.size = size.max(offset + source.len());
        Ok(Earlier {
            size,
            replaced: Some(saved),
        })
    }

    /// Cuts the bytes to a size, or fills them with zeros to it, and answers what takes this back.
    /// After want of memory all is as before.
    pub(crate) fn resize(&mut self, size: usize) -> Result<Earlier, NoMemory>
        requires { size ≤ 16777216 }
        ensures ok { OnOk result (content self.new ≡ resized size (content self.old)) }
        ensures can { IfOk result (λ earlier. CanRestore earlier self.new) }
        ensures earlier { IfOk result (λ earlier. restored_content earlier self.new ≡ self.old) }
        ensures err { OnErr result (self.new ≡ self.old) }
    {
        let old = self.size;
        if size <= old {
            self.size = size;
            return Ok(Earlier {
                size: old,
                replaced: None,
            });
        }
        let zeros = patch::zeros(*self.bytes.allocator(), size - old)?;
        self.write(old, zeros.as_slice())
    }

    /// Takes a change back.
    pub(crate) fn restore(&mut self, earlier: &Earlier)
        requires { CanRestore earlier.now self.old }
        ensures { self.new ≡ restored_content earlier.now self.old }
    {
        if let Some(saved) = &earlier.replaced {
            patch::restore(&mut self.bytes, saved);
        }
        self.size = earlier.size;
    }
}

impl Duplicate for Content {
    fn copy(&self) -> Result<Content, NoMemory> {
        let bytes = Vec::from_slice(*self.bytes.allocator(), self.bytes.as_slice())?;
        Ok(Content {
            bytes,
            size: self.size,
        })
    }
}
