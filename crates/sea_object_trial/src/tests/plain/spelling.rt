//! Words of a script, read and written one byte after the other.

use std::alloc::{AllocError, Global};
use std::fmt::Write;

fn digit(byte: u8) -> u8 {
    match byte {
        b'0'..=b'9' => byte - b'0',
        b'a'..=b'f' => byte - b'a' + 10,
        _ => 0,
    }
}

/// The bytes of a name: `%` and two digits are one byte.
pub fn name_of(alloc: Global, word: &str) -> Result<Vec<u8>, AllocError> {
    let mut bytes = Vec::new(alloc);
    let mut digits = 0u8;
    let mut value = 0u8;
    for byte in word.as_bytes() {
        if *byte == b'%' {
            digits = 2;
        } else if digits == 2 {
            value = digit(*byte);
            digits = 1;
        } else if digits == 1 {
            bytes.push(value.wrapping_mul(16).wrapping_add(digit(*byte)))?;
            digits = 0;
        } else {
            bytes.push(*byte)?;
        }
    }
    Ok(bytes)
}

/// The bytes of a word of `x` and digits.
pub fn bytes_of(alloc: Global, word: &str) -> Result<Vec<u8>, AllocError> {
    let mut bytes = Vec::new(alloc);
    let mut high: Option<u8> = None;
    for byte in word.as_bytes().iter().skip(1) {
        let low = digit(*byte);
        match high {
            Some(value) => {
                bytes.push(value.wrapping_mul(16).wrapping_add(low))?;
                high = None;
            }
            None => high = Some(low),
        }
    }
    Ok(bytes)
}

pub fn number_of(word: &str) -> usize {
    word.parse::<usize>().unwrap_or(0)
}

pub fn push_name(text: &mut String, bytes: &[u8]) -> Result<(), AllocError> {
    for byte in bytes {
        if byte.is_ascii_graphic() && *byte != b'%' && *byte != b';' {
            text.push(char::from(*byte))?;
        } else {
            write!(text, "%{byte:02x}")?;
        }
    }
    Ok(())
}

pub fn push_bytes(text: &mut String, bytes: &[u8]) -> Result<(), AllocError> {
    text.push('x')?;
    for byte in bytes {
        write!(text, "{byte:02x}")?;
    }
    Ok(())
}
