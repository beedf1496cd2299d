//! The bytes of an object.
ghost use Rattle.std.specs.Prelude.{◌≡◌, ◌+◌, ◌≤◌, [], length, IfOk, OnOk, OnErr};
ghost use Rattle.sea_object.specs.Answer.{written};
ghost use Rattle.sea_pieces.specs.Laying.{laid};

use sea_base::{Duplicate, NoMemory};
use std::alloc::Global;
use std::marker::Model;

/// The bytes of an object, of which there are 16,777,216 at most.
#[derive(Debug, Drop)]
pub(crate) struct Content {
    bytes: Vec<u8>,
}

impl Model for Content {
    ghost use Rattle.std.specs.Prelude.{ℕ, List, ◌≤◌, length};

    ghost Value = { List ℕ };

    ghost view = { λ c. c.bytes.items };

    ghost invariant = { λ c. length c.bytes.items ≤ 16777216 };
}

impl Content {
    /// No bytes. It takes no memory.
    pub(crate) fn new(alloc: Global) -> Content
        ensures { result ≡ [] }
    {
        Content {
            bytes: Vec::new(alloc),
        }
    }

    /// The bytes, in order.
    pub(crate) fn bytes(&self) -> &[u8]
        ensures bytes { result.now ≡ self.now }
        ensures few { length result.now ≤ 16777216 }
    {
        self.bytes.as_slice()
    }

    /// Lays bytes over these from an offset on, with zeros before them where there were fewer.
    pub(crate) fn lay(&mut self, offset: usize, bytes: &[u8]) -> Result<(), NoMemory>
        requires { offset + length bytes.now ≤ 16777216 }
        ensures ok { OnOk result (self.new ≡ laid offset bytes.now self.old) }
        ensures err { OnErr result (self.new ≡ self.old) }
    {
        if bytes.is_empty() {
            return Ok(());
        }
        write_at(&mut self.bytes, offset, bytes)?;
        Ok(())
    }
}

// Writes bytes from an offset on, with zeros before them where there were fewer.
fn write_at(bytes: &mut Vec<u8>, offset: usize, source: &[u8]) -> Result<(), NoMemory>
    requires { offset + length source.now ≤ 16777216 }
    ensures ok { OnOk result (bytes.new.items ≡ written offset source.now bytes.old.items) }
    ensures err { OnErr result (bytes.new.items ≡ bytes.old.items) }
{
    let size = bytes.len();
    let end = offset + source.len();
    bytes.resize(size.max(end), 0)?;
    overwrite(bytes.as_mut_slice(), offset, source);
    Ok(())
}

fn overwrite(bytes: &mut [u8], offset: usize, source: &[u8])
    requires { offset + length source.now ≤ length bytes.old }
    ensures { bytes.new ≡ written offset source.now bytes.old }
{
    bytes[offset..offset + source.len()].copy_from_slice(source);
}

impl Duplicate for Content {
    fn copy(&self) -> Result<Content, NoMemory> {
        let bytes = Vec::from_slice(*self.bytes.allocator(), self.bytes.as_slice())?;
        Ok(Content { bytes })
    }
}
