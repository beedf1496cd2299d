//! The words of a line, read one by one.
ghost use Rattle.std.specs.Prelude.{◌≡◌, ◌<◌, ℕ, [], ◌∷◌, slice_index, MatchOption, MatchResult};
ghost use Rattle.std.specs.Fmt.{decimal};
ghost use Rattle.hex.specs.Hex.{lower_digits};
ghost use Rattle.sea_base.specs.Name.{IsName};
ghost use Rattle.sea_plain_script.specs.ScriptReading.{Finds, Reads, TakesByte, left};
ghost use Rattle.sea_plain_script.specs.Script.{AreBytes, byte_text, data_text, name_text, pair_text, stands_for_itself};

use crate::ScriptWhy;
use crate::script::fault::LineFault;
use crate::script::parts::Parts;
use sea_base::{Data, Name, NameFault};
use std::alloc::Global;

/// The fault of a line that asks for nothing that is served.
pub const NOT_BUILT: LineFault = LineFault::Why(ScriptWhy::NotBuilt);

/// Reads a word.
pub fn word<'a>(words: &mut Parts<'a>) -> Result<&'a [u8], LineFault>
    ensures { MatchResult result
        (λ word. left words.old ≡ word.now ∷ left words.new)
        (λ fault. (fault ≡ LineFault.Why ScriptWhy.NotBuilt) × (left words.old ≡ [])) }
{
    words.next().ok_or(NOT_BUILT)
}

/// Reads a number of 1 to 9 digits.
pub fn number(words: &mut Parts) -> Result<u32, LineFault>
    ensures { Reads (λ n. n < 1000000000) (λ n. decimal n ∷ []) (left words.old) (left words.new) result }
{
    number_of(word(words)?).ok_or(NOT_BUILT)
}

/// Reads a name.
pub fn name(alloc: Global, words: &mut Parts) -> Result<Name, LineFault>
    ensures { Reads (λ name. IsName name × AreBytes name) (λ name. name_text name ∷ [])
        (left words.old) (left words.new) result }
{
    name_of(alloc, word(words)?)
}

/// Reads bytes.
pub fn data(alloc: Global, words: &mut Parts) -> Result<Data, LineFault>
    ensures { Reads AreBytes (λ bytes. data_text bytes ∷ []) (left words.old) (left words.new) result }
{
    data_of(alloc, word(words)?)
}

// The number of 1 to 9 digits that is spelled.
fn number_of(word: &[u8]) -> Option<u32>
    ensures { MatchOption result
        ((n : ℕ) → n < 1000000000 → word.now ≡ decimal n → ⊥)
        (λ n. (n < 1000000000) × (word.now ≡ decimal n)) }
{
    let (first, others) = word.split_first()?;
    if *first == b'0' {
        return if others.is_empty() { Some(0) } else { None };
    }
    if word.len() > 9 {
        return None;
    }
    let mut value = 0;
    for digit in word {
        if !digit.is_ascii_digit() {
            return None;
        }
        value = 10 * value + u32::from(*digit - b'0');
    }
    Some(value)
}

fn name_of(alloc: Global, word: &[u8]) -> Result<Name, LineFault>
    ensures { Finds (λ name. IsName name × AreBytes name × (word.now ≡ name_text name)) result }
{
    let mut bytes = Vec::new(alloc);
    let mut rest = word;
    while !rest.is_empty() {
        let Some((byte, others)) = name_byte(rest) else {
            return Err(NOT_BUILT);
        };
        bytes.push(byte)?;
        rest = others;
    }
    match Name::new(alloc, &bytes) {
        Ok(name) => Ok(name),
        Err(NameFault::NoMemory) => Err(LineFault::NoMemory),
        Err(NameFault::BadName) => Err(NOT_BUILT),
    }
}

fn data_of(alloc: Global, word: &[u8]) -> Result<Data, LineFault>
    ensures { Finds (λ bytes. AreBytes bytes × (word.now ≡ data_text bytes)) result }
{
    let Some((first, digits)) = word.split_first() else {
        return Err(NOT_BUILT);
    };
    if *first != b'x' {
        return Err(NOT_BUILT);
    }
    let mut bytes = Vec::with_capacity(alloc, digits.len() / 2)?;
    let mut rest = digits;
    while !rest.is_empty() {
        let Some((byte, others)) = pair(rest) else {
            return Err(NOT_BUILT);
        };
        bytes.push(byte)?;
        rest = others;
    }
    Ok(Data::from_vec(bytes)?)
}

// The byte that a name's text begins with, and the rest of the text.
fn name_byte(text: &[u8]) -> Option<(u8, &[u8])>
    ensures { TakesByte byte_text text.now result }
{
    let (first, others) = text.split_first()?;
    if *first == b'%' {
        let (byte, rest) = pair(others)?;
        if stands_for_itself(byte) {
            None
        } else {
            Some((byte, rest))
        }
    } else if stands_for_itself(*first) {
        Some((*first, others))
    } else {
        None
    }
}

// The byte of the two digits that a text begins with, and the rest of the text.
fn pair(text: &[u8]) -> Option<(u8, &[u8])>
    ensures { TakesByte pair_text text.now result }
{
    let [high, low, others @ ..] = text else {
        return None;
    };
    let byte = 16 * digit(*high)? + digit(*low)?;
    Some((byte, others))
}

// The value of a lower-case hexadecimal digit.
fn digit(byte: u8) -> Option<u8>
    ensures { MatchOption result
        ((d : ℕ) → d < 16 → byte ≡ slice_index lower_digits d → ⊥)
        (λ d. (d < 16) × (byte ≡ slice_index lower_digits d)) }
{
    match byte {
        b'0'..=b'9' => Some(byte - b'0'),
        b'a'..=b'f' => Some(byte - b'a' + 10),
        _ => None,
    }
}

// Whether a byte of a name stands for itself.
fn stands_for_itself(byte: u8) -> bool
    ensures { result ≡ stands_for_itself byte }
{
    33 <= byte && byte <= 126 && byte != b'%' && byte != b';'
}
