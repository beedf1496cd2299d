//! The order of keys.
ghost use Rattle.std.specs.Prelude.{◌↔◌, IsTrue};
ghost use Rattle.sea_node.specs.Entries.{IsBelow};

use sea_base::u64_at;

/// How many bytes of two keys are compared at once.
pub(crate) const WORD_BYTES: usize = 8;

/// Whether a key comes before another: by their bytes as unsigned numbers, and a proper prefix
/// first.
#[inline(always)]
pub fn comes_before(first: &[u8], second: &[u8]) -> bool
    ensures { IsTrue result ↔ IsBelow first.now second.now }
{
    // Most keys differ in their first words.
    if first.len() >= WORD_BYTES && second.len() >= WORD_BYTES {
        // The first byte of a word is its highest.
        let front = u64_at(first, 0);
        let other = u64_at(second, 0);
        if front != other {
            return front < other;
        }
    }
    comes_before_by_words(first, second)
}

// The same, word by word.
#[inline(never)]
fn comes_before_by_words(first: &[u8], second: &[u8]) -> bool
    ensures { IsTrue result ↔ IsBelow first.now second.now }
{
    let mut front = first;
    let mut other = second;
    'words: while front.len() >= WORD_BYTES && other.len() >= WORD_BYTES {
        let word = u64_at(front, 0);
        let its = u64_at(other, 0);
        if word != its {
            return word < its;
        }
        front = &front[WORD_BYTES..];
        other = &other[WORD_BYTES..];
    }
    front < other
}
