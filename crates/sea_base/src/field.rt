//! Big-endian numbers in fields of byte strings.
ghost use Rattle.std.specs.Prelude.{◌≡◌, ℕ, ◌+◌, ◌≤◌, ◌<◌, ◌^◌, ◌++◌, ◌↔◌, length, take, drop, replicate, slice_range, IsTrue};
ghost use Rattle.sea_base.specs.Field.{big_endian};

use byteorder::{BigEndian, ByteOrder};

/// Whether each byte is zero.
pub fn is_zero(bytes: &[u8]) -> bool
    ensures { IsTrue result ↔ (bytes.now ≡ replicate (length bytes.now) 0) }
{
    // The loop ends nowhere else, so it is compiled to steps of many bytes.
    let mut greatest = 0;
    for byte in bytes {
        if *byte > greatest {
            greatest = *byte;
        }
    }
    greatest == 0
}

/// The number in the 2 bytes from `at` on.
pub fn u16_at(bytes: &[u8], at: usize) -> u16
    requires { at + 2 ≤ length bytes.now }
    ensures spelled { slice_range bytes.now at (at + 2) ≡ big_endian 2 result }
    ensures only { (n : ℕ) → n < 2 ^ 16 → slice_range bytes.now at (at + 2) ≡ big_endian 2 n → result ≡ n }
{
    BigEndian::read_u16(&bytes[at..at + 2])
}

/// The number in the 4 bytes from `at` on.
pub fn u32_at(bytes: &[u8], at: usize) -> u32
    requires { at + 4 ≤ length bytes.now }
    ensures spelled { slice_range bytes.now at (at + 4) ≡ big_endian 4 result }
    ensures only { (n : ℕ) → n < 2 ^ 32 → slice_range bytes.now at (at + 4) ≡ big_endian 4 n → result ≡ n }
{
    BigEndian::read_u32(&bytes[at..at + 4])
}

/// The number in the 8 bytes from `at` on.
pub fn u64_at(bytes: &[u8], at: usize) -> u64
    requires { at + 8 ≤ length bytes.now }
    ensures spelled { slice_range bytes.now at (at + 8) ≡ big_endian 8 result }
    ensures only { (n : ℕ) → n < 2 ^ 64 → slice_range bytes.now at (at + 8) ≡ big_endian 8 n → result ≡ n }
{
    BigEndian::read_u64(&bytes[at..at + 8])
}

/// Writes a number into the 2 bytes from `at` on.
pub fn put_u16(bytes: &mut [u8], at: usize, value: u16)
    requires { at + 2 ≤ length bytes.old }
    ensures { bytes.new ≡ take at bytes.old ++ big_endian 2 value ++ drop (at + 2) bytes.old }
{
    BigEndian::write_u16(&mut bytes[at..at + 2], value);
}

/// Writes a number into the 4 bytes from `at` on.
pub fn put_u32(bytes: &mut [u8], at: usize, value: u32)
    requires { at + 4 ≤ length bytes.old }
    ensures { bytes.new ≡ take at bytes.old ++ big_endian 4 value ++ drop (at + 4) bytes.old }
{
    BigEndian::write_u32(&mut bytes[at..at + 4], value);
}

/// Writes a number into the 8 bytes from `at` on.
pub fn put_u64(bytes: &mut [u8], at: usize, value: u64)
    requires { at + 8 ≤ length bytes.old }
    ensures { bytes.new ≡ take at bytes.old ++ big_endian 8 value ++ drop (at + 8) bytes.old }
{
    BigEndian::write_u64(&mut bytes[at..at + 8], value);
}

/// Writes bytes from `at` on.
pub fn put_bytes(bytes: &mut [u8], at: usize, value: &[u8])
    requires { at + length value.now ≤ length bytes.old }
    ensures { bytes.new ≡ take at bytes.old ++ value.now ++ drop (at + length value.now) bytes.old }
{
    bytes[at..at + value.len()].copy_from_slice(value);
}
