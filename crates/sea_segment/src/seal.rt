//! Blocks that end in their own digest.
ghost use Rattle.std.specs.Prelude.{◌≡◌, ◌≤◌, ◌↔◌, length, vec_len, IfOk, IsTrue};
ghost use Rattle.sea_segment.specs.Seal.{sealed, HasSeal};

use sea_base::{BLOCK_BYTES, Block, NoMemory, digest_at, digest_of, is_zero, sealed_digest};

const DIGEST_BYTES: usize = 32;

/// The block that begins with these bytes, and has its own digest behind them.
pub fn seal(front: Vec<u8>) -> Result<Block, NoMemory>
    requires { vec_len front ≤ 4064 }
    ensures { IfOk result (λ block. block ≡ sealed front.items) }
{
    let at = front.len();
    let mut bytes = front;
    bytes.resize(BLOCK_BYTES, 0)?;
    let digest = digest_of(&bytes);
    bytes.truncate(at);
    bytes.extend_from_slice(&digest.0)?;
    bytes.resize(BLOCK_BYTES, 0)?;
    Block::from_vec(bytes)
}

/// Whether the bytes of a block have their own digest at `at`, and zeros behind it.
pub fn is_sealed(bytes: &[u8], at: usize) -> bool
    requires block { length bytes.now ≡ 4096 }
    requires room { at ≤ 4064 }
    ensures { IsTrue result ↔ HasSeal bytes.now at }
{
    is_zero(&bytes[at + DIGEST_BYTES..]) && digest_at(bytes, at) == sealed_digest(bytes, at)
}
