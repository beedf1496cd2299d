//! The words of a line, one by one.
ghost use Rattle.std.specs.Prelude.{◌≡◌, ◌<◌, ℕ, ◌∷◌, slice_index, MatchOption};
ghost use Rattle.std.specs.Fmt.{decimal};
ghost use Rattle.hex.specs.Hex.{lower_digits};
ghost use Rattle.sea_base.specs.Name.{IsName};
ghost use Rattle.sea_script.specs.Reading.{Finds, TakesByte};
ghost use Rattle.sea_script.specs.Word.{AreBytes, byte_text, data_text, name_text, pair_text, stands_for_itself};

use crate::ScriptWhy;
use crate::fault::LineFault;
use sea_base::{Data, Name};
use std::alloc::Global;

const BAD_NAME: LineFault = LineFault::Why(ScriptWhy::BadName);

const BAD_HEX: LineFault = LineFault::Why(ScriptWhy::BadHex);

/// The number of 1 to 9 digits that is spelled.
pub fn number_of(word: &[u8]) -> Option<u32>
    ensures { MatchOption result
        ((n : ℕ) → n < 1000000000 → word.now ≡ decimal n → ⊥)
        (λ n. (n < 1000000000) × (word.now ≡ decimal n)) }
{
    let (first, others) = word.split_first()?;
    if *first == b'0' {
        return if others.is_empty() { Some(0) } else { None };
    }
    if word.len() > 9 {
        return None;
    }
    let mut value = 0;
    for digit in word {
        if !digit.is_ascii_digit() {
            return None;
        }
        value = 10 * value + u32::from(*digit - b'0');
    }
    Some(value)
}

/// The name that is spelled.
pub fn name_of(alloc: Global, word: &[u8]) -> Result<Name, LineFault>
    ensures { Finds (λ name. IsName name × AreBytes name × (word.now ≡ name_text name))
        ScriptWhy.BadName result }
{
    let mut bytes = Vec::with_capacity(alloc, word.len())?;
    let mut rest = word;
    while !rest.is_empty() {
        let Some((byte, others)) = name_byte(rest) else {
            return Err(BAD_NAME);
        };
        bytes.push(byte)?;
        rest = others;
    }
    match Name::from_data(Data::from_vec(bytes)?) {
        Some(name) => Ok(name),
        None => Err(BAD_NAME),
    }
}

/// The bytes that are spelled.
pub fn data_of(alloc: Global, word: &[u8]) -> Result<Data, LineFault>
    ensures { Finds (λ bytes. AreBytes bytes × (word.now ≡ data_text bytes))
        ScriptWhy.BadHex result }
{
    let Some((first, digits)) = word.split_first() else {
        return Err(BAD_HEX);
    };
    if *first != b'x' {
        return Err(BAD_HEX);
    }
    let mut bytes = Vec::with_capacity(alloc, digits.len() / 2)?;
    let mut rest = digits;
    while !rest.is_empty() {
        let Some((byte, others)) = pair(rest) else {
            return Err(BAD_HEX);
        };
        bytes.push(byte)?;
        rest = others;
    }
    Ok(Data::from_vec(bytes)?)
}

// The byte that a name's text begins with, and the rest of the text.
fn name_byte(text: &[u8]) -> Option<(u8, &[u8])>
    ensures { TakesByte byte_text text.now result }
{
    let (first, others) = text.split_first()?;
    if *first == b'%' {
        let (byte, rest) = pair(others)?;
        if stands_for_itself(byte) {
            None
        } else {
            Some((byte, rest))
        }
    } else if stands_for_itself(*first) {
        Some((*first, others))
    } else {
        None
    }
}

// The byte of the two digits that a text begins with, and the rest of the text.
fn pair(text: &[u8]) -> Option<(u8, &[u8])>
    ensures { TakesByte pair_text text.now result }
{
    let [high, low, others @ ..] = text else {
        return None;
    };
    let byte = 16 * digit(*high)? + digit(*low)?;
    Some((byte, others))
}

// The value of a lower-case hexadecimal digit.
fn digit(byte: u8) -> Option<u8>
    ensures { MatchOption result
        ((d : ℕ) → d < 16 → byte ≡ slice_index lower_digits d → ⊥)
        (λ d. (d < 16) × (byte ≡ slice_index lower_digits d)) }
{
    match byte {
        b'0'..=b'9' => Some(byte - b'0'),
        b'a'..=b'f' => Some(byte - b'a' + 10),
        _ => None,
    }
}

/// Whether a byte of a name stands for itself.
pub fn stands_for_itself(byte: u8) -> bool
    ensures { result ≡ stands_for_itself byte }
{
    33 <= byte && byte <= 126 && byte != b'%' && byte != b';'
}
