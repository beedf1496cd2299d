//! What a request is answered.
use sea_base::{Data, Sequence};

/// What an operation answers.
#[derive(Debug, PartialEq, Eq, Drop)]
pub enum Item {
    /// The operation was done, and has nothing to tell.
    Unit,
    /// There is no such object.
    Absent,
    /// Bytes of an object.
    Bytes(Data),
}

/// The items of a request's operations, in order.
pub type Items = Sequence<Item>;

/// The reply to a request.
#[derive(Debug, Drop)]
pub enum Reply {
    /// Each operation was done, and answered its item.
    Done(Items),
    /// The request's record needs more blocks than are left, and nothing was done.
    Full {
        /// The blocks that the record needs.
        need: u32,
        /// The blocks that are left where it would be written.
        rest: u32,
        /// The segments that are empty.
        empty: u32,
    },
}
