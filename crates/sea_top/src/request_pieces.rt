//! What a request writes.
ghost use Rattle.std.specs.Prelude.{◌≡◌, IfOk};
ghost use Rattle.sea_top.specs.Pieces.{pieces_asked};

use crate::{Piece, Pieces};
use sea_base::{Duplicate, NoMemory};
use sea_plain::Op;
use std::alloc::Global;

/// The pieces of a request's record: one for each write, in order.
pub fn pieces_asked(alloc: Global, ops: &[Op]) -> Result<Pieces, NoMemory>
    ensures { IfOk result (λ pieces. pieces ≡ pieces_asked ops.now) }
{
    let mut pieces = Pieces::new(alloc);
    for op in ops {
        match op {
            Op::Write {
                name,
                offset,
                bytes,
            } => pieces.push(Piece {
                name: name.copy()?,
                offset: *offset,
                bytes: bytes.copy()?,
            })?,
            Op::Read { .. } => {}
        }
    }
    Ok(pieces)
}
