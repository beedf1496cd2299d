//! A key looked up in a node in place, with no list of the node's entries.
ghost use Rattle.std.specs.Prelude.{◌≡◌, ℕ, ◌≤◌, ◌↔◌, List, IfOk, IfSome, IfNone, IsTrue, MatchOption, length};
ghost use Rattle.sea_node.specs.Entries.{Entry, IsRising};
ghost use Rattle.sea_node.specs.Node.{Spells};
ghost use Rattle.sea_node.specs.Reading.{BeginsAtLevel, IsSpan, key_in, entry_in};
ghost use Rattle.sea_node.specs.Lookup.{Tells, Passes, HasSpans, IsSpanIf, HasValueOf, IsBegun, IsRead, HasEntry, HasNoEntry, GoesOn, GoesOnNoMore, IsEnough, keyed, entered};

use crate::Node;
use crate::leap::{first_word, leap};
use crate::node::FRONT_BYTES;
use crate::order::comes_before;
use crate::reading::{ADDRESS_BYTES, Span, read_level, share_entry, share_key, span_at};
use sea_base::{BLOCK_BYTES, Block, Data, Key, NoMemory, is_zero};

/// What a node tells of a key. Its keys and its value share the bytes of the block.
#[derive(Debug, Drop)]
pub struct Lookup {
    /// 0 for a leaf, to 7.
    pub level: u32,
    /// How many bytes the entries take.
    pub size: usize,
    /// The first key.
    pub first: Key,
    /// The last key.
    pub last: Key,
    /// The last entry whose key is not above the key, if there is one.
    pub found: Option<(Key, Data)>,
    /// The first key above the key, if there is one.
    pub next: Option<Key>,
}

// Where the entries of a block stand that tell of a key.
#[derive(Clone, Copy)]
pub(crate) struct Passed {
    pub first: Span,
    pub last: Span,
    // The last entry whose key is not above the key.
    pub found: Option<Span>,
    // The first entry whose key is above the key.
    pub next: Option<Span>,
}

impl Node {
    /// What the node that a block spells tells of a key, if it spells one.
    pub fn look_up(block: &Block, key: &Key) -> Result<Option<Lookup>, NoMemory>
        ensures some { IfOk result (λ found. IfSome found (λ lookup.
            (entries : List Entry) × Spells block.now lookup.level entries
            × Tells key.now entries lookup)) }
        ensures none { IfOk result (λ found.
            IfNone found
            ((level : ℕ) (entries : List Entry) → Spells block.now level entries → ⊥)) }
    {
        let Some((level, passed)) = Passed::of(block, key) else {
            return Ok(None);
        };
        Ok(Some(passed.told(block, level)?))
    }
}

impl Passed {
    /// What the node that a block spells tells of a key, with its level, if the block spells one.
    pub fn of(block: &Block, key: &Key) -> Option<(u32, Passed)>
        ensures some { IfSome result (λ found. (entries : List Entry)
            × Spells block.now found.0 entries × Passes block.now key.now entries found.1) }
        ensures spans { IfSome result (λ found. HasSpans block.now found.1) }
        ensures none { IfNone result
            ((level : ℕ) (entries : List Entry) → Spells block.now level entries → ⊥) }
    {
        let Some(level) = read_level(block) else {
            return None;
        };
        let Some(passed) = Passed::through(block.bytes(), level, key.bytes()) else {
            return None;
        };
        if !passed.is_enough(block.bytes(), level) {
            return None;
        }
        Some((level, passed))
    }

    // What all entries of a block tell, if they may stand in a node of a level.
    fn through(bytes: &[u8], level: u32, key: &[u8]) -> Option<Passed>
        requires block { length bytes.now ≡ BLOCK_BYTES }
        requires level { BeginsAtLevel bytes.now level }
        ensures some { IfSome result (λ passed. (entries : List Entry)
            × IsRead bytes.now level entries × Passes bytes.now key.now entries passed) }
        ensures spans { IfSome result (HasSpans bytes.now) }
        ensures none { IfNone result ((level : ℕ) (entries : List Entry)
            → Spells bytes.now level entries
            → ⊥) }
    {
        let Some(first) = entry_at(bytes, level, FRONT_BYTES) else {
            return None;
        };
        let found = Passed::seek(bytes, level, first, key);
        let passed = found.to_end(bytes, level);
        if !is_zero(&bytes[passed.last.end..]) {
            return None;
        }
        Some(passed)
    }

    // What the entries from the first one on tell, up to one above the key or to the last.
    #[inline(never)]
    fn seek(bytes: &[u8], level: u32, first: Span, key: &[u8]) -> Passed
        requires block { length bytes.now ≡ BLOCK_BYTES }
        requires first { HasEntry bytes.now level FRONT_BYTES first }
        ensures passed { (entries : List Entry)
            × IsBegun bytes.now level result.last.end entries
            × Passes bytes.now key.now entries result }
        ensures spans { HasSpans bytes.now result }
        ensures value { HasValueOf level (entry_in bytes.now result.last) }
        ensures ends { IfNone result.next (GoesOnNoMore bytes.now level result.last) }
    {
        if comes_before(key, &bytes[first.key_at..first.value_at]) {
            return Passed {
                first,
                last: first,
                found: None,
                next: Some(first),
            };
        }
        let below = first_word(key);
        let mut last = leap(bytes, first, below);
        'seek: while let Some(entry) = entry_behind(bytes, level, last) {
            if comes_before(key, &bytes[entry.key_at..entry.value_at]) {
                return Passed {
                    first,
                    last: entry,
                    found: Some(last),
                    next: Some(entry),
                };
            }
            last = leap(bytes, entry, below);
        }
        Passed {
            first,
            last,
            found: Some(last),
            next: None,
        }
    }

    // The same with all entries behind, where those so far go up to one above the key.
    #[inline(never)]
    fn to_end(self, bytes: &[u8], level: u32) -> Passed
        requires block { length bytes.now ≡ BLOCK_BYTES }
        requires spans { HasSpans bytes.now self }
        requires value { HasValueOf level (entry_in bytes.now self.last) }
        requires ends { IfNone self.next (GoesOnNoMore bytes.now level self.last) }
        ensures passed { (key : List ℕ) (entries : List Entry)
            → IsBegun bytes.now level self.last.end entries → Passes bytes.now key entries self
            → (all : List Entry) × IsBegun bytes.now level result.last.end all
            × Passes bytes.now key all result }
        ensures spans { HasSpans bytes.now result }
        ensures ends { GoesOnNoMore bytes.now level result.last }
    {
        if self.next.is_none() {
            return self;
        }
        let mut last = leap(bytes, self.last, u64::MAX);
        'rest: while let Some(entry) = entry_behind(bytes, level, last) {
            last = leap(bytes, entry, u64::MAX);
        }
        Passed { last, ..self }
    }

    // Whether the entries are enough for a node of a level.
    fn is_enough(&self, bytes: &[u8], level: u32) -> bool
        requires block { length bytes.now ≡ BLOCK_BYTES }
        requires spans { HasSpans bytes.now self.now }
        ensures { (key : List ℕ) (entries : List Entry) → IsRising entries
            → Passes bytes.now key entries self.now → IsTrue result ↔ IsEnough level entries }
    {
        let first = &bytes[self.first.key_at..self.first.value_at];
        // The only entry of a node is its first and its last.
        if level > 0 && first == &bytes[self.last.key_at..self.last.value_at] {
            return false;
        }
        true
    }

    // What a node of a level with these entries tells.
    fn told(self, block: &Block, level: u32) -> Result<Lookup, NoMemory>
        requires { HasSpans block.now self }
        ensures level { IfOk result (λ lookup. lookup.level ≡ level) }
        ensures tells { IfOk result (λ lookup. (key : List ℕ) (entries : List Entry)
            → Passes block.now key entries self → Tells key entries lookup) }
    {
        Ok(Lookup {
            level,
            size: self.last.end - FRONT_BYTES,
            first: share_key(block, self.first)?,
            last: share_key(block, self.last)?,
            found: share_found(block, self.found)?,
            next: share_next(block, self.next)?,
        })
    }
}

// Where the parts of an entry of a node of a level are that stands at a place.
#[inline(always)]
fn entry_at(bytes: &[u8], level: u32, at: usize) -> Option<Span>
    requires block { length bytes.now ≡ BLOCK_BYTES }
    requires within { at ≤ BLOCK_BYTES }
    ensures { MatchOption result (HasNoEntry bytes.now level at) (HasEntry bytes.now level at) }
{
    let Some(entry) = span_at(bytes, at) else {
        return None;
    };
    if level > 0 && entry.end - entry.value_at != ADDRESS_BYTES {
        return None;
    }
    Some(entry)
}

// The same of an entry that goes on where another ends.
#[inline(always)]
fn entry_behind(bytes: &[u8], level: u32, last: Span) -> Option<Span>
    requires block { length bytes.now ≡ BLOCK_BYTES }
    requires last { IsSpan bytes.now last }
    ensures { MatchOption result (GoesOnNoMore bytes.now level last) (GoesOn bytes.now level last) }
{
    let Some(entry) = entry_at(bytes, level, last.end) else {
        return None;
    };
    let before = &bytes[last.key_at..last.value_at];
    if !comes_before(before, &bytes[entry.key_at..entry.value_at]) {
        return None;
    }
    Some(entry)
}

// The entry where a span says, if there is one.
fn share_found(block: &Block, found: Option<Span>) -> Result<Option<(Key, Data)>, NoMemory>
    requires { IsSpanIf block.now found }
    ensures { IfOk result (λ entry. entry ≡ entered block.now found) }
{
    match found {
        Some(span) => Ok(Some(share_entry(block, span)?)),
        None => Ok(None),
    }
}

// The key where a span says, if there is one.
fn share_next(block: &Block, next: Option<Span>) -> Result<Option<Key>, NoMemory>
    requires { IsSpanIf block.now next }
    ensures { IfOk result (λ key. key ≡ keyed block.now next) }
{
    match next {
        Some(span) => Ok(Some(share_key(block, span)?)),
        None => Ok(None),
    }
}
