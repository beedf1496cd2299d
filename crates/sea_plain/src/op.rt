//! Operations on objects, and the limits of each.
ghost use Rattle.std.specs.Prelude.{◌≡◌, ◌↔◌, ◌+◌, ◌^◌, ◌≤◌, ◌<◌, IsTrue};
ghost use Rattle.sea_plain.specs.Op.{IsWithinLimits, blocks_touched, data_blocks, key_weight, name_of};

use sea_base::{Data, Name, Sequence, is_name};

/// The bytes of an object at most.
pub const OBJECT_BYTES: u32 = 16_777_216;

/// The bytes that one read may ask for.
pub const READ_BYTES: u32 = 65_536;

/// An operation of a request. Offsets and lengths are in bytes.
#[derive(Debug, Drop)]
pub enum Op {
    /// Makes the object where there is none, fills it with zeros up to the offset, and replaces or
    /// appends the bytes.
    Write {
        name: Name,
        offset: u32,
        bytes: Data,
    },
    /// Asks for the object's bytes from the offset on, up to the length and the object's end.
    Read {
        name: Name,
        offset: u32,
        length: u32,
    },
}

/// The operations of a request, in order.
pub type Ops = Sequence<Op>;

impl Op {
    /// The name of the object that the operation is on.
    pub fn name(&self) -> &Name
        ensures { result.now ≡ name_of self.now }
    {
        match self {
            Op::Write { name, .. } => name,
            Op::Read { name, .. } => name,
        }
    }

    /// Whether the operation's range is one that an object can have.
    pub fn is_within_limits(&self) -> bool
        ensures { IsTrue result ↔ IsWithinLimits self.now }
    {
        match self {
            Op::Write {
                name,
                offset,
                bytes,
            } => { is_name(name.bytes()) && is_written(*offset, bytes.len()) }
            Op::Read {
                name,
                offset,
                length,
            } => { is_name(name.bytes()) && is_read(*offset, *length) }
        }
    }

    /// The blocks of the object that the operation writes.
    pub fn data_blocks(&self) -> u64
        requires { IsWithinLimits self.now }
        ensures blocks { result ≡ data_blocks self.now }
        ensures bound { result < 2 ^ 53 }
    {
        match self {
            Op::Write { offset, bytes, .. } => blocks_touched(
                u64::from(*offset),
                bytes.len() as u64,
            ),
            Op::Read { .. } => 0,
        }
    }

    /// What the operation weighs among the changes of keys.
    pub fn key_weight(&self) -> u64
        ensures weight { result ≡ key_weight self.now }
        ensures bound { result < 2 ^ 53 }
    {
        match self {
            Op::Write { .. } => 1,
            Op::Read { .. } => 0,
        }
    }
}

fn is_written(offset: u32, len: usize) -> bool
    ensures { IsTrue result ↔ ((1 ≤ len) × (offset + len ≤ 16777216)) }
{
    1 <= len && len <= OBJECT_BYTES as usize && offset as usize + len <= OBJECT_BYTES as usize
}

fn is_read(offset: u32, length: u32) -> bool
    ensures { IsTrue result ↔ ((offset ≤ 16777216) × (1 ≤ length) × (length ≤ 65536)) }
{
    offset <= OBJECT_BYTES && 1 <= length && length <= READ_BYTES
}

// The blocks of 4,096 bytes that a range of one byte or more touches.
fn blocks_touched(offset: u64, length: u64) -> u64
    requires offset { offset < 2 ^ 32 }
    requires length { (1 ≤ length) × (length < 2 ^ 63) }
    ensures blocks { result ≡ blocks_touched offset length }
    ensures bound { result < 2 ^ 53 }
{
    (offset + length - 1) / 4096 - offset / 4096 + 1
}
