//! Splices of blocks, one after the other.
#![tactic(auto)]

ghost use Rattle.std.specs.Prelude.{◌≡◌, ◌↔◌, ◌++◌, [], IfOk, IfSome, IsSome, IsTrue, OnOk, All, length};
ghost use Rattle.sea_base.specs.Splice.{IsSplice, spliced};
ghost use Rattle.sea_delta.specs.Splices.{HasRoom, after_all};

use sea_base::{BLOCK_BYTES, Block, Delta, NoMemory};
use std::alloc::Global;

/// The block that splices make of another, each of what the one before it made. There is none
/// exactly where a splice passes the end of a block: where `cut + gone` or `cut` plus the length of
/// `put` is more than 4,096.
pub fn apply(alloc: Global, block: &Block, changes: &[Delta]) -> Result<Option<Block>, NoMemory>
    ensures some { IfOk result (λ made. IsSome made ↔ All HasRoom changes.now) }
    ensures value { IfOk result
        (λ made. IfSome made (λ new. new ≡ after_all changes.now block.now)) }
{
    if !changes.iter().all(has_room) {
        return Ok(None);
    }
    let mut made = block.share()?;
    for change in changes {
        made = splice(alloc, &made, change)?;
    }
    Ok(Some(made))
}

// Whether a splice has room in a block.
fn has_room(change: &Delta) -> bool
    ensures { IsTrue result ↔ HasRoom change.now }
{
    let cut = change.cut as usize;
    cut + change.gone as usize <= BLOCK_BYTES && cut + change.put.len() <= BLOCK_BYTES
}

// The block that one splice makes of another.
fn splice(alloc: Global, block: &Block, change: &Delta) -> Result<Block, NoMemory>
    requires { HasRoom change.now }
    ensures { IfOk result
        (λ made. made ≡ spliced change.now.cut change.now.gone change.now.put block.now) }
{
    let old = block.bytes();
    let cut = change.cut as usize;
    let mut bytes = Vec::with_capacity(alloc, BLOCK_BYTES + change.put.len())?;
    bytes.extend_from_slice(&old[..cut])?;
    bytes.extend_from_slice(change.put.bytes())?;
    bytes.extend_from_slice(&old[cut + change.gone as usize..])?;
    bytes.resize(BLOCK_BYTES, 0)?;
    Block::from_vec(bytes)
}

#[cfg(test)]
mod tests;
