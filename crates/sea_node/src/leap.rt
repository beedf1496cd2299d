//! A leap over entries of the same lengths, as most entries of a node are.
ghost use Rattle.std.specs.Prelude.{◌≡◌, ℕ, ◌+◌, ◌-◌, ◌<◌, ◌≤◌, List, IsTrue, length};
ghost use Rattle.sea_node.specs.Entries.{IsBelow};
ghost use Rattle.sea_node.specs.Reading.{IsSpan, SpansAt, entry_in};
ghost use Rattle.sea_node.specs.Leap.{HasWordBelow, Leaps, moved_to};
ghost use Rattle.sea_node.specs.Lookup.{HasValueOf};

use crate::order::WORD_BYTES;
use crate::reading::{LENGTHS_BYTES, Span};
use sea_base::{BLOCK_BYTES, u16_at, u64_at};

/// The number that the first bytes of a key spell, or 0 of a short one. Keys whose first bytes
/// spell a lower one are below the key.
#[inline(always)]
pub(crate) fn first_word(key: &[u8]) -> u64
    ensures { (other : List ℕ) → HasWordBelow other result → IsBelow other key.now }
{
    if key.len() < WORD_BYTES {
        return 0;
    }
    u64_at(key, 0)
}

/// The last of the entries that go on from one with its lengths, while the first words of their
/// keys rise and are below a number.
#[inline(always)]
pub(crate) fn leap(bytes: &[u8], first: Span, below: u64) -> Span
    requires block { length bytes.now ≡ BLOCK_BYTES }
    requires first { IsSpan bytes.now first }
    ensures leaps { (level : ℕ) → HasValueOf level (entry_in bytes.now first)
        → Leaps bytes.now level below first result }
    ensures span { IsSpan bytes.now result }
    ensures further { first.end ≤ result.end }
{
    if first.value_at - first.key_at < WORD_BYTES {
        return first;
    }
    let mut end = first.end;
    let mut word = u64_at(bytes, first.key_at);
    'leap: while is_like(bytes, first, end) {
        let its = u64_at(bytes, end + LENGTHS_BYTES);
        if its <= word || its >= below {
            break;
        }
        word = its;
        end += LENGTHS_BYTES + (first.end - first.key_at);
    }
    moved(first, end)
}

// Whether an entry with the lengths of another stands at a place.
#[inline(always)]
fn is_like(bytes: &[u8], first: Span, at: usize) -> bool
    requires block { length bytes.now ≡ BLOCK_BYTES }
    requires first { IsSpan bytes.now first }
    requires within { at ≤ BLOCK_BYTES }
    ensures { IsTrue result
        → SpansAt bytes.now at (moved_to first (at + (3 + (first.end - first.key_at)))) }
{
    if at + LENGTHS_BYTES + (first.end - first.key_at) > BLOCK_BYTES {
        return false;
    }
    if bytes[at] as usize != first.value_at - first.key_at {
        return false;
    }
    if u16_at(bytes, at + 1) as usize != first.end - first.value_at {
        return false;
    }
    true
}

// The span of an entry with the same lengths that ends elsewhere.
#[inline(always)]
fn moved(span: Span, end: usize) -> Span
    requires order { (span.key_at ≤ span.value_at) × (span.value_at ≤ span.end) }
    requires enough { span.end ≤ end }
    ensures { result ≡ moved_to span end }
{
    Span {
        key_at: end - (span.end - span.key_at),
        value_at: end - (span.end - span.value_at),
        end,
    }
}
