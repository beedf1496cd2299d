//! The parts of a node, read from a block.
ghost use Rattle.std.specs.Prelude.{◌≡◌, ◌+◌, ◌<◌, ◌≤◌, ◌↔◌, length, drop, All, IfOk, IsTrue, MatchOption};
ghost use Rattle.std.specs.List.{AllByRecursion};
ghost use Rattle.sea_node.specs.Entries.{IsRising, size};
ghost use Rattle.sea_node.specs.Node.{IsNode};
ghost use Rattle.sea_node.specs.Reading.{IsEntry, BeginsAtLevel, BeginsAtNoLevel, BeginsWithNoEntry, StandsAt, AreEntries, AreNoEntries, IsSpan, SpansAt, key_in, entry_in};

use crate::node::{FRONT_BYTES, MAGIC, ROOM_BYTES};
use crate::order::comes_before;
use sea_base::{BLOCK_BYTES, Block, Data, Key, NoMemory, Pairs, is_name, is_zero, u16_at};
use std::alloc::Global;

const LEVEL_AT: usize = 4;

const LEVELS: u8 = 8;

/// How many bytes the lengths of an entry's key and value take.
pub(crate) const LENGTHS_BYTES: usize = 3;

/// How many bytes a value has at most.
pub const VALUE_BYTES: usize = 1024;

/// How many bytes an entry takes at most: the lengths of its key and its value, 64 and 1,024 bytes.
pub const ENTRY_BYTES: usize = 1091;

/// How many bytes the address of a child has.
pub const ADDRESS_BYTES: usize = 8;

/// The level of the node that the block begins as.
pub fn read_level(block: &Block) -> Option<u32>
    ensures length { length block.now ≡ BLOCK_BYTES }
    ensures level { MatchOption result (BeginsAtNoLevel block.now) (BeginsAtLevel block.now) }
{
    let bytes = block.bytes();
    let level = bytes[LEVEL_AT];
    if &bytes[..LEVEL_AT] != MAGIC.as_slice()
        || level >= LEVELS
        || !is_zero(&bytes[LEVEL_AT + 1..FRONT_BYTES])
    {
        return None;
    }
    Some(level as u32)
}

/// The entries that the block has behind its first bytes, with zeros behind them.
pub fn read_entries(alloc: Global, block: &Block) -> Result<Option<Pairs>, NoMemory>
    ensures { IfOk result (λ found.
        MatchOption found (AreNoEntries (drop FRONT_BYTES block.now))
        (AreEntries (drop FRONT_BYTES block.now))) }
{
    let bytes = block.bytes();
    let mut entries = Pairs::new(alloc);
    let mut at = FRONT_BYTES;
    while at < BLOCK_BYTES && bytes[at] != 0 {
        let Some((entry, end)) = read_entry(block, at)? else {
            return Ok(None);
        };
        entries.push(entry)?;
        at = end;
    }
    if !is_zero(&bytes[at..]) {
        return Ok(None);
    }
    Ok(Some(entries))
}

/// Where the parts of an entry stand in a block: the key up to the value, and the value up to the
/// end.
#[derive(Clone, Copy, Debug)]
pub struct Span {
    /// Where the key begins.
    pub key_at: usize,
    /// Where the value begins.
    pub value_at: usize,
    /// Where the entry ends.
    pub end: usize,
}

/// Where the parts of the entry that stands at a place are.
#[inline(always)]
pub fn span_at(bytes: &[u8], at: usize) -> Option<Span>
    requires block { length bytes.now ≡ BLOCK_BYTES }
    requires within { at ≤ BLOCK_BYTES }
    ensures { MatchOption result (BeginsWithNoEntry (drop at bytes.now)) (SpansAt bytes.now at) }
{
    let key_at = at + LENGTHS_BYTES;
    if key_at > BLOCK_BYTES {
        return None;
    }
    let value_len = u16_at(bytes, at + 1) as usize;
    let value_at = key_at + bytes[at] as usize;
    let end = value_at + value_len;
    if end > BLOCK_BYTES || value_len > VALUE_BYTES || !is_name(&bytes[key_at..value_at]) {
        return None;
    }
    Some(Span {
        key_at,
        value_at,
        end,
    })
}

/// The entry that stands at a place, and where it ends.
pub fn read_entry(block: &Block, at: usize) -> Result<Option<((Key, Data), usize)>, NoMemory>
    requires { at < BLOCK_BYTES }
    ensures { IfOk result (λ found.
        MatchOption found (BeginsWithNoEntry (drop at block.now))
        (λ x. StandsAt block.now at x.0 x.1)) }
{
    let Some(span) = span_at(block.bytes(), at) else {
        return Ok(None);
    };
    let entry = share_entry(block, span)?;
    Ok(Some((entry, span.end)))
}

/// The key and the value where a span says, which share the bytes of the block.
pub fn share_entry(block: &Block, span: Span) -> Result<(Key, Data), NoMemory>
    requires { IsSpan block.now span }
    ensures { IfOk result (λ entry. entry ≡ entry_in block.now span) }
{
    let key = share_key(block, span)?;
    let value = block.part(span.value_at, span.end)?;
    Ok((key, value))
}

/// The key where a span says, which shares the bytes of the block.
pub fn share_key(block: &Block, span: Span) -> Result<Key, NoMemory>
    requires { IsSpan block.now span }
    ensures { IfOk result (λ key. key ≡ key_in block.now span) }
{
    let key = Key::from_data(block.part(span.key_at, span.value_at)?);
    Ok(key.unwrap())
}

/// Whether entries that fit into a block make a node of this level.
pub fn is_node(level: u32, entries: &[(Key, Data)]) -> bool
    requires level { level ≤ 7 }
    requires entries { AllByRecursion IsEntry entries.now }
    requires fits { size entries.now ≤ ROOM_BYTES }
    ensures { IsTrue result ↔ IsNode level entries.now }
{
    !entries.is_empty() && (level == 0 || are_children(entries)) && is_rising(entries)
}

// Whether there are two entries at least, and the value of each is an address.
fn are_children(entries: &[(Key, Data)]) -> bool
    ensures { IsTrue result ↔ ((2 ≤ length entries.now) × All (λ e. length e.1 ≡ 8) entries.now) }
{
    entries.len() >= 2 && entries.iter().all(|entry| entry.1.len() == ADDRESS_BYTES)
}

// Whether the keys rise strictly.
fn is_rising(entries: &[(Key, Data)]) -> bool
    ensures { IsTrue result ↔ IsRising entries.now }
{
    entries.is_sorted_by(|first, second| comes_before(first.0.bytes(), second.0.bytes()))
}
