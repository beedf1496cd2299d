//! The plain program: objects as a list of names and bytes, of which the newest stands first.
ghost use Rattle.std.specs.Prelude.{◌≡◌, ◌+◌, ◌-◌, ◌<◌, ◌^◌, ◌++◌, length, take, drop, replicate, IfOk, OnOk};
ghost use Rattle.std.specs.Option.{option_copied};
ghost use Rattle.sea_plain.specs.Answer.{answer, after, effect, item, read_item, written};
ghost use Rattle.sea_plain.specs.Scan.{newest};

use crate::{Item, Items, Op, Reply, Request};
use sea_base::{Data, Duplicate, Name, NoMemory};
use std::alloc::{AllocError, Global};
use std::iter;
use std::marker::Model;

/// Objects as a list of names and bytes, of which the first of a name counts. Contracts see the
/// finite map that it makes. Each write makes the object anew: it is for comparison.
#[derive(Debug, Drop)]
pub struct Plain {
    alloc: Global,
    written: Vec<(Name, Data)>,
}

impl Model for Plain {
    ghost use Rattle.std.specs.Coded.{coded_list, coded_ℕ};
    ghost use Rattle.std.specs.FinMap as map;
    ghost use Rattle.sea_plain.specs.Objects.{ObjectMap, object_code};
    ghost use Rattle.sea_plain.specs.Scan.{objects_of};

    ghost Value = { ObjectMap };

    ghost coded = { map.code (coded_list coded_ℕ) object_code };

    ghost view = { λ p. objects_of p.written.items };
}

impl Plain {
    ghost use Rattle.std.specs.FinMap as map;
    ghost use Rattle.sea_plain.specs.Objects.{object_at, with_bytes};

    /// No object. It takes no memory.
    pub fn new(alloc: Global) -> Plain
        ensures { result ≡ map.empty }
    {
        Plain {
            alloc,
            written: Vec::new(alloc),
        }
    }

    /// Does the operations of a request in order, and answers their items. After want of memory
    /// some of them may be done.
    pub fn apply(&mut self, request: &Request) -> Result<Reply, NoMemory>
        ensures reply { IfOk result (λ reply. reply ≡ answer request.now self.old) }
        ensures after { OnOk result (self.new ≡ after request.now self.old) }
    {
        let mut answers = Items::new(self.alloc);
        for op in request.ops() {
            answers.push(self.step(op)?)?;
        }
        Ok(Reply::Done(answers))
    }

    fn step(&mut self, op: &Op) -> Result<Item, NoMemory>
        ensures item { IfOk result (λ made. made ≡ item op.now self.old) }
        ensures effect { OnOk result (self.new ≡ effect op.now self.old) }
    {
        match op {
            Op::Write {
                name,
                offset,
                bytes,
            } => self.write(name, *offset as usize, bytes.bytes()),
            Op::Read {
                name,
                offset,
                length,
            } => self.read(name, *offset as usize, *length as usize),
        }
    }

    fn write(&mut self, name: &Name, offset: usize, bytes: &[u8]) -> Result<Item, NoMemory>
        requires { offset < 2 ^ 63 }
        ensures item { IfOk result (λ made. made ≡ Item.Unit) }
        ensures effect { OnOk result (self.new ≡ with_bytes self.old name.now (written offset bytes.now (object_at self.old name.now).bytes)) }
    {
        let old = bytes_of(self.written.as_slice(), name).unwrap_or(&[]);
        let new = Data::from_vec(write(self.alloc, old, offset, bytes)?)?;
        self.written.insert(0, (name.copy()?, new))?;
        Ok(Item::Unit)
    }

    fn read(&self, name: &Name, offset: usize, length: usize) -> Result<Item, NoMemory>
        ensures { IfOk result (λ made. made ≡ read_item offset length (map.get self.now name.now)) }
    {
        let Some(bytes) = bytes_of(self.written.as_slice(), name) else {
            return Ok(Item::Absent);
        };
        Ok(Item::Bytes(Data::from_vec(read(self.alloc, bytes, offset, length)?)?))
    }
}

fn bytes_of<'a>(written: &'a [(Name, Data)], name: &Name) -> Option<&'a [u8]>
    ensures { option_copied result ≡ newest name.now written.now }
{
    for (other, bytes) in written {
        if other == name {
            return Some(bytes.bytes());
        }
    }
    None
}

fn write(alloc: Global, old: &[u8], offset: usize, bytes: &[u8]) -> Result<Vec<u8>, AllocError>
    requires { offset < 2 ^ 63 }
    ensures { IfOk result (λ new. new.items ≡ written offset bytes.now old.now) }
{
    let mut new = before(alloc, old, offset)?;
    new.extend_from_slice(bytes)?;
    let end = old.len().min(offset + bytes.len());
    new.extend_from_slice(&old[end..])?;
    Ok(new)
}

// As many bytes as the offset says, zeros after the old ones.
fn before(alloc: Global, old: &[u8], offset: usize) -> Result<Vec<u8>, AllocError>
    ensures { IfOk result (λ new. new.items ≡ take offset (old.now ++ replicate (offset - length old.now) 0)) }
{
    let zeros = iter::repeat_n(0, offset.saturating_sub(old.len()));
    old.iter().copied().chain(zeros).take(offset).collect(alloc)
}

fn read(alloc: Global, bytes: &[u8], offset: usize, length: usize) -> Result<Vec<u8>, AllocError>
    ensures { IfOk result (λ part. part.items ≡ take length (drop offset bytes.now)) }
{
    bytes
        .iter()
        .copied()
        .skip(offset)
        .take(length)
        .collect(alloc)
}
