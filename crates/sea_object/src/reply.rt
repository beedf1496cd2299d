//! What a request is answered.
use sea_base::{Data, Duplicate, Names, NoMemory, Pairs, Sequence};

/// What an operation answers.
#[derive(Debug, PartialEq, Drop)]
pub enum Item {
    /// The operation was done, and has nothing to tell.
    Unit,
    /// There is no such object, or no such key.
    Absent,
    /// Bytes of an object, or a value.
    Bytes(Data),
    /// A size in bytes, or a number of keys.
    Number(u32),
    /// Names of objects, in the order of their bytes.
    Names(Names),
    /// Keys with their values, in the order of the keys' bytes.
    Pairs(Pairs),
}

/// The items of a request's operations, in order.
pub type Items = Sequence<Item>;

/// Why an operation is refused, and its request with it.
#[derive(Clone, Copy, Debug, PartialEq, Eq)]
pub enum Why {
    /// There is no such object.
    NoObject,
    /// More than 10,000 keys would stand in the omap.
    OmapFull,
    /// The object has 64 attributes, and this would be another.
    AttrFull,
}

/// The reply to a request.
#[derive(Debug, PartialEq, Drop)]
pub enum Reply {
    /// Each operation was done, and answered its item.
    Done(Items),
    /// An operation was refused, and nothing was done.
    Refused {
        /// The first operation that was refused, counted from 1.
        op: u32,
        /// Why it was.
        why: Why,
    },
    /// There is no room for the request's record, and nothing was done.
    Full {
        /// The blocks that the record needs.
        need: u32,
        /// The blocks that are left where it would be written.
        rest: u32,
        /// The segments that are empty.
        empty: u32,
    },
}

impl Duplicate for Item {
    fn copy(&self) -> Result<Item, NoMemory> {
        match self {
            Item::Unit => Ok(Item::Unit),
            Item::Absent => Ok(Item::Absent),
            Item::Bytes(bytes) => Ok(Item::Bytes(bytes.copy()?)),
            Item::Number(number) => Ok(Item::Number(*number)),
            Item::Names(names) => Ok(Item::Names(names.copy()?)),
            Item::Pairs(pairs) => Ok(Item::Pairs(pairs.copy()?)),
        }
    }
}

impl Duplicate for Reply {
    fn copy(&self) -> Result<Reply, NoMemory> {
        match self {
            Reply::Done(items) => Ok(Reply::Done(items.copy()?)),
            Reply::Refused { op, why } => Ok(Reply::Refused { op: *op, why: *why }),
            Reply::Full { need, rest, empty } => Ok(Reply::Full {
                need: *need,
                rest: *rest,
                empty: *empty,
            }),
        }
    }
}
