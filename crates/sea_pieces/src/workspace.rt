//! The transactions of clients on the objects that pieces make.
ghost use Rattle.std.specs.Prelude.{◌≡◌, length};

mod calls;

use crate::{PieceStore, Transaction};
use std::alloc::Global;

/// The transactions of clients on the objects that pieces make. Each client has a place here for
/// what its transaction has done, also while none is open.
#[derive(Debug, Drop)]
pub struct Workspace {
    alloc: Global,
    store: PieceStore,
    transactions: Vec<Transaction>,
    ghost each: { length transactions.items ≡ length store.board.transactions.items },
}
