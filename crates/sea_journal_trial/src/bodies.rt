//! Bodies of records, and roots.
ghost use Rattle.std.specs.Prelude.{◌≡◌, ℕ, ◌*◌, ◌-◌, ◌≤◌, IfOk};
ghost use Rattle.sea_journal_trial.specs.Bodies.{MayGo};

use sea_base::{BLOCK_BYTES, Data, Laddr, NoMemory, PRoot, Paddr, Root, Sequence, Sum};
use sea_record::{Body, Kind};
use std::alloc::Global;

const EMPTY_TREE: PRoot = PRoot {
    at: Paddr(0),
    height: 0,
    sum: Sum(0),
};

/// The roots of empty trees, and this next address.
pub fn empty_root(next: u64) -> Root
    ensures { result.next.0 ≡ next }
{
    Root {
        lba: EMPTY_TREE,
        owners: EMPTY_TREE,
        next: Laddr(next),
    }
}

/// How many plain bytes make a record of so many blocks: they leave 7 of the last block.
pub fn plain_len(blocks: u32) -> usize
    ensures { result ≡ 4096 * blocks - 4103 }
{
    (blocks as usize * BLOCK_BYTES).saturating_sub(BLOCK_BYTES + 7)
}

/// The body of a plain record of so many blocks, each of its bytes the same.
pub fn plain_body(alloc: Global, blocks: u32, byte: u8) -> Result<Body, NoMemory>
    requires some { 2 ≤ blocks }
    requires few { blocks ≤ 1024 }
    ensures { IfOk result (λ body. (commit next : ℕ) → MayGo commit next body) }
{
    let bytes = vec![in alloc; byte; plain_len(blocks)]?;
    Ok(Body {
        kind: Kind::Plain,
        placed: Sequence::new(alloc),
        nodes: Sequence::new(alloc),
        dropped: Sequence::new(alloc),
        changes: Sequence::new(alloc),
        plain: Data::from_vec(bytes)?,
    })
}
