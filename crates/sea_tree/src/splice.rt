//! A splice of the block that stands at an address.
ghost use Rattle.std.specs.Prelude.{◌≤◌, length};
ghost use Rattle.sea_base.specs.Splice.{IsSplice};
ghost use Rattle.sea_node.specs.declared.reading.TheConstants.{ENTRY_BYTES};

use sea_base::{Block, Delta, Laddr};

/// A splice of the block that stands at an address, with the block that it makes.
#[derive(Debug, Drop)]
pub(crate) struct Splice {
    /// The address.
    pub at: Laddr,
    /// The splice.
    pub delta: Delta,
    /// The block that it makes.
    pub block: Block,
    ghost fits: { IsSplice delta.cut delta.gone delta.put },
    ghost small: { length delta.put ≤ ENTRY_BYTES },
}
