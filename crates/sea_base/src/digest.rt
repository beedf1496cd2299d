//! Digests and sums by SHA-256 (FIPS 180-4).
ghost use Rattle.std.specs.Prelude.{◌≡◌, ◌+◌, ◌≤◌, ◌++◌, length, replicate, take, drop, slice_range};
ghost use Rattle.sea_base.specs.Digest.{sha256};
ghost use Rattle.sea_base.specs.Field.{big_endian};

use crate::{Block, u64_at};
use sha2::{Digest as _, Sha256};

/// The SHA-256 of a byte string.
#[derive(Clone, Copy, Debug, PartialEq, Eq)]
pub struct Digest(pub [u8; 32]);

/// The first 8 bytes of a block's SHA-256, as a number.
#[derive(Clone, Copy, Debug, PartialEq, Eq)]
pub struct Sum(pub u64);

/// The SHA-256 of the bytes.
pub fn digest_of(bytes: &[u8]) -> Digest
    ensures { result.0 ≡ sha256 bytes.now }
{
    Digest(Sha256::digest(bytes))
}

/// The digest that stands in the 32 bytes from `at` on.
pub fn digest_at(bytes: &[u8], at: usize) -> Digest
    requires { at + 32 ≤ length bytes.now }
    ensures { result.0 ≡ slice_range bytes.now at (at + 32) }
{
    let mut digest = [0; 32];
    digest.copy_from_slice(&bytes[at..at + 32]);
    Digest(digest)
}

/// The SHA-256 of a structure that holds its own digest in the 32 bytes from `at` on: these count as zero.
pub fn sealed_digest(bytes: &[u8], at: usize) -> Digest
    requires { at + 32 ≤ length bytes.now }
    ensures { result.0 ≡ sha256 (take at bytes.now ++ replicate 32 0 ++ drop (at + 32) bytes.now) }
{
    let mut hasher = Sha256::new();
    hasher.update(&bytes[..at]);
    hasher.update(&[0u8; 32]);
    hasher.update(&bytes[at + 32..]);
    Digest(hasher.finalize())
}

/// The sum of a block.
pub fn sum_of(block: &Block) -> Sum
    ensures { big_endian 8 result.0 ≡ take 8 (sha256 block.now) }
{
    let digest = digest_of(block.bytes());
    Sum(u64_at(&digest.0, 0))
}
