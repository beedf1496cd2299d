//! One data block written: in part, whole, or zeroed from a place on.
ghost use Rattle.std.specs.Prelude.{◌≡◌, ◌+◌, ◌<◌, ◌≤◌, length, replicate, Some, IfOk, OnOk};
ghost use Rattle.std.specs.Result.{result_err};
ghost use Rattle.sea_base.specs.Ghosts.{IsReady, IsCall};
ghost use Rattle.sea_base.specs.Space.{IsKnown};
ghost use Rattle.sea_base.specs.Splice.{IsSplice, spliced as after_splice};
ghost use Rattle.sea_data.specs.Steps.{Edit, Takes, IsSpliced, among_zeros};
ghost use Rattle.sea_data.specs.Steps.Edit.{Over, Clear};

use sea_base::{BLOCK_BYTES, Block, Data, Delta, Laddr, NoMemory, Space, SpaceFault, is_zero};
use sea_delta::apply;
use std::alloc::Global;

/// Lays bytes over a block from a place on. A block that is written whole is put, and isn't read;
/// one that is written in part is amended where there is one, and put among zeros where there is
/// none.
pub(crate) fn write_part<S: Space>(
    alloc: Global,
    space: &mut S,
    at: Laddr,
    place: usize,
    bytes: &[u8],
) -> Result<(), SpaceFault>
    requires ready { IsReady S.Space space.old }
    requires room { place + length bytes.now ≤ 4096 }
    ensures taken { OnOk result
        (Takes at.0 (Over place bytes.now) (S.seen space.old) (S.seen space.new)) }
    ensures next { (S.seen space.new).next ≡ (S.seen space.old).next }
    ensures call { IsCall S.Space space.old space.new (result_err result) }
{
    if bytes.len() == BLOCK_BYTES {
        let block = Block::new(alloc, bytes)?;
        return space.put(at, block);
    }
    let found = space.get(at)?;
    match found {
        Some(block) => {
            let put = Data::new(alloc, bytes)?;
            let delta = Delta {
                cut: place as u16,
                gone: bytes.len() as u16,
                put,
            };
            amend(alloc, space, at, &block, delta)
        }
        None => {
            let block = block_of(alloc, place, bytes)?;
            space.put(at, block)
        }
    }
}

/// Zeros a block from a place on, where there is one and one of these bytes isn't zero.
pub(crate) fn clear_from<S: Space>(
    alloc: Global,
    space: &mut S,
    at: Laddr,
    cut: usize,
) -> Result<(), SpaceFault>
    requires ready { IsReady S.Space space.old }
    requires cut { cut ≤ 4096 }
    ensures taken { OnOk result (Takes at.0 (Clear cut) (S.seen space.old) (S.seen space.new)) }
    ensures next { (S.seen space.new).next ≡ (S.seen space.old).next }
    ensures call { IsCall S.Space space.old space.new (result_err result) }
{
    let Some(block) = space.get(at)? else {
        return Ok(());
    };
    if is_zero(&block.bytes()[cut..]) {
        return Ok(());
    }
    let put = Data::new(alloc, &[])?;
    let delta = Delta {
        cut: cut as u16,
        gone: (BLOCK_BYTES - cut) as u16,
        put,
    };
    amend(alloc, space, at, &block, delta)
}

// Amends a block by a splice that has room in it.
fn amend<S: Space>(
    alloc: Global,
    space: &mut S,
    at: Laddr,
    block: &Block,
    delta: Delta,
) -> Result<(), SpaceFault>
    requires ready { IsReady S.Space space.old }
    requires known { IsKnown (S.seen space.old) at.0 }
    requires there { (S.seen space.old).view at.0 ≡ Some block.now }
    requires room { IsSplice delta.cut delta.gone delta.put }
    ensures spliced { OnOk result
        (IsSpliced at.0 delta block.now (S.seen space.old) (S.seen space.new)) }
    ensures next { (S.seen space.new).next ≡ (S.seen space.old).next }
    ensures call { IsCall S.Space space.old space.new (result_err result) }
{
    // A block has 4,096 bytes.
    prove!(block.bytes().len() == BLOCK_BYTES);
    let made = spliced(alloc, block, &delta)?;
    space.amend(at, delta, made)
}

// The block that a splice makes of another.
fn spliced(alloc: Global, block: &Block, delta: &Delta) -> Result<Block, NoMemory>
    requires { IsSplice delta.now.cut delta.now.gone delta.now.put }
    ensures { IfOk result (λ made. made
        ≡ after_splice delta.now.cut delta.now.gone delta.now.put block.now) }
{
    match apply(alloc, block, std::slice::from_ref(delta))? {
        Some(made) => Ok(made),
        None => unreachable!(),
    }
}

// The block of these bytes with zeros before and behind them.
fn block_of(alloc: Global, place: usize, bytes: &[u8]) -> Result<Block, NoMemory>
    requires { place + length bytes.now ≤ 4096 }
    ensures { IfOk result (λ block. block ≡ among_zeros place bytes.now) }
{
    let mut made = zeros(alloc, place)?;
    made.extend_from_slice(bytes)?;
    made.resize(BLOCK_BYTES, 0)?;
    Block::from_vec(made)
}

/// So many zeros.
pub(crate) fn zeros(alloc: Global, count: usize) -> Result<Vec<u8>, NoMemory>
    ensures { IfOk result (λ zeros. zeros.items ≡ replicate count 0) }
{
    let mut zeros = Vec::new(alloc);
    zeros.resize(count, 0)?;
    Ok(zeros)
}
