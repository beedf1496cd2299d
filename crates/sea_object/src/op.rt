//! Operations on objects, and the limits of each.
ghost use Rattle.std.specs.Prelude.{◌≡◌, ◌↔◌, ◌+◌, ◌^◌, ◌≤◌, ◌<◌, IsTrue, IfOk};
ghost use Rattle.sea_object.specs.Op.{HasGoodRange, HasGoodValues};
ghost use Rattle.sea_object.specs.Op.{blocks_touched, data_blocks, key_weight};
ghost use Rattle.sea_object.specs.Op.{kind, kind_changes, name_of};
ghost use Rattle.std.specs.Option.{option_copied};

use sea_base::{Data, Duplicate, Key, Name, Names, NoMemory, Pairs, Sequence};

/// The bytes of an object at most.
pub const OBJECT_BYTES: u32 = 16_777_216;

/// The bytes that one read may ask for.
pub const READ_BYTES: u32 = 65_536;

/// The bytes of a value at most.
pub const VALUE_BYTES: usize = 1_024;

/// The names or pairs that one listing may ask for.
pub const LISTED: u32 = 64;

/// The keys that one change of a range of keys may take away.
pub const RANGE_KEYS: u32 = 32;

/// An operation of a request. Offsets, lengths and sizes are in bytes. What changes an object that
/// is not there is refused, but for the first three, which make it.
#[derive(Debug, PartialEq, Drop)]
pub enum Op {
    /// Makes an empty object where there is none.
    Touch {
        name: Name,
    },
    /// Fills the object with zeros up to the offset, and replaces or appends the bytes.
    Write {
        name: Name,
        offset: u32,
        bytes: Data,
    },
    /// Writes zeros.
    Zero {
        name: Name,
        offset: u32,
        length: u32,
    },
    /// Cuts the bytes to the size, or fills them with zeros to it.
    Truncate {
        name: Name,
        size: u32,
    },
    /// Takes the object away, with its attributes and keys.
    Remove {
        name: Name,
    },
    /// Puts an attribute.
    SetAttr {
        name: Name,
        key: Key,
        value: Data,
    },
    /// Takes an attribute away, if it is there.
    RmAttr {
        name: Name,
        key: Key,
    },
    /// Takes all attributes away.
    RmAttrs {
        name: Name,
    },
    /// Puts pairs into the omap, in order.
    OmapSetKeys {
        name: Name,
        pairs: Pairs,
    },
    /// Takes keys out of the omap, those that are there.
    OmapRmKeys {
        name: Name,
        keys: Names,
    },
    /// Takes the first keys from `from` on and below `to` out of the omap, `bound` of them at
    /// most, and answers how many there were.
    OmapRmKeyRange {
        name: Name,
        from: Key,
        to: Key,
        bound: u32,
    },
    /// Takes all keys out of the omap.
    OmapClear {
        name: Name,
    },
    /// Asks for the object's bytes from the offset on, up to the length and the object's end.
    Read {
        name: Name,
        offset: u32,
        length: u32,
    },
    /// Asks for the object's size.
    Stat {
        name: Name,
    },
    /// Asks for an attribute's value.
    GetAttr {
        name: Name,
        key: Key,
    },
    /// Asks for all attributes.
    GetAttrs {
        name: Name,
    },
    /// Asks for the value of a key of the omap.
    OmapGet {
        name: Name,
        key: Key,
    },
    /// Asks for the first pairs of the omap, of the keys above `after`, `limit` of them at most.
    OmapList {
        name: Name,
        limit: u32,
        after: Option<Key>,
    },
    /// Asks for the first names of objects above `after`, `limit` of them at most.
    List {
        limit: u32,
        after: Option<Name>,
    },
}

/// What sort of operation it is.
#[derive(Clone, Copy, Debug, PartialEq, Eq)]
pub enum Kind {
    /// It makes its object where there is none, and may write into it.
    Makes,
    /// It puts something to an object that must be there.
    Puts,
    /// It takes something from an object that must be there.
    Takes,
    /// It changes nothing.
    Asks,
}

impl Kind {
    /// Whether such an operation changes anything.
    pub fn changes(self) -> bool
        ensures { result ≡ kind_changes self }
    {
        match self {
            Kind::Asks => false,
            Kind::Makes | Kind::Puts | Kind::Takes => true,
        }
    }
}

/// The operations of a request, in order.
pub type Ops = Sequence<Op>;

impl Op {
    /// The name of the object that the operation is on. A listing of names is on none.
    pub fn name(&self) -> Option<&Name>
        ensures { option_copied result ≡ name_of self.now }
    {
        match self {
            Op::Touch { name }
            | Op::Write { name, .. }
            | Op::Zero { name, .. }
            | Op::Truncate { name, .. }
            | Op::Remove { name }
            | Op::SetAttr { name, .. }
            | Op::RmAttr { name, .. }
            | Op::RmAttrs { name }
            | Op::OmapSetKeys { name, .. }
            | Op::OmapRmKeys { name, .. }
            | Op::OmapRmKeyRange { name, .. }
            | Op::OmapClear { name }
            | Op::Read { name, .. }
            | Op::Stat { name }
            | Op::GetAttr { name, .. }
            | Op::GetAttrs { name }
            | Op::OmapGet { name, .. }
            | Op::OmapList { name, .. } => Some(name),
            Op::List { .. } => None,
        }
    }

    /// What sort of operation it is.
    pub fn kind(&self) -> Kind
        ensures { result ≡ kind self.now }
    {
        match self {
            Op::Touch { .. } | Op::Write { .. } | Op::Zero { .. } => Kind::Makes,
            Op::SetAttr { .. } | Op::OmapSetKeys { .. } => Kind::Puts,
            Op::Truncate { .. }
            | Op::Remove { .. }
            | Op::RmAttr { .. }
            | Op::RmAttrs { .. }
            | Op::OmapRmKeys { .. }
            | Op::OmapRmKeyRange { .. }
            | Op::OmapClear { .. } => Kind::Takes,
            _ => Kind::Asks,
        }
    }

    /// Whether offsets, lengths and numbers are within their limits.
    pub fn has_good_range(&self) -> bool
        ensures { IsTrue result ↔ HasGoodRange self.now }
    {
        match self {
            Op::Write { offset, bytes, .. } => is_written(*offset, bytes.len()),
            Op::Zero { offset, length, .. } => is_written(*offset, *length as usize),
            Op::Truncate { size, .. } => *size <= OBJECT_BYTES,
            Op::OmapSetKeys { pairs, .. } => !pairs.items().is_empty(),
            Op::OmapRmKeys { keys, .. } => !keys.items().is_empty(),
            Op::OmapRmKeyRange { bound, .. } => 1 <= *bound && *bound <= RANGE_KEYS,
            Op::Read { offset, length, .. } => {
                *offset <= OBJECT_BYTES && 1 <= *length && *length <= READ_BYTES
            }
            Op::OmapList { limit, .. } | Op::List { limit, .. } => 1 <= *limit && *limit <= LISTED,
            _ => true,
        }
    }

    /// Whether no value is too long.
    pub fn has_good_values(&self) -> bool
        ensures { IsTrue result ↔ HasGoodValues self.now }
    {
        match self {
            Op::SetAttr { value, .. } => value.len() <= VALUE_BYTES,
            Op::OmapSetKeys { pairs, .. } => pairs
                .items()
                .iter()
                .all(|pair| pair.1.len() <= VALUE_BYTES),
            _ => true,
        }
    }
}

impl Op {
    /// The blocks of 4,096 bytes that the operation counts as written.
    pub fn data_blocks(&self) -> u64
        requires { HasGoodRange self.now }
        ensures blocks { result ≡ data_blocks self.now }
        ensures bound { result < 2 ^ 53 }
    {
        match self {
            Op::Write { offset, bytes, .. } => {
                blocks_touched(u64::from(*offset), bytes.len() as u64)
            }
            Op::Zero { offset, length, .. } => {
                blocks_touched(u64::from(*offset), u64::from(*length))
            }
            Op::Truncate { .. } => 1,
            _ => 0,
        }
    }

    /// What the operation weighs among the changes of keys.
    pub fn key_weight(&self) -> u64
        ensures weight { result ≡ key_weight self.now }
        ensures bound { result < 2 ^ 63 }
    {
        match self {
            Op::Touch { .. }
            | Op::Write { .. }
            | Op::Zero { .. }
            | Op::SetAttr { .. }
            | Op::RmAttr { .. } => 1,
            Op::Remove { .. } | Op::Truncate { .. } | Op::OmapClear { .. } | Op::RmAttrs { .. } =>
                8,
            Op::OmapSetKeys { pairs, .. } => pairs.items().len() as u64,
            Op::OmapRmKeys { keys, .. } => keys.items().len() as u64,
            Op::OmapRmKeyRange { bound, .. } => u64::from(*bound),
            _ => 0,
        }
    }
}

// The blocks of 4,096 bytes that a range of one byte or more touches.
fn blocks_touched(offset: u64, length: u64) -> u64
    requires offset { offset < 2 ^ 32 }
    requires length { (1 ≤ length) × (length < 2 ^ 63) }
    ensures blocks { result ≡ blocks_touched offset length }
    ensures bound { result < 2 ^ 53 }
{
    (offset + length - 1) / 4096 - offset / 4096 + 1
}

fn is_written(offset: u32, len: usize) -> bool
    ensures { IsTrue result ↔ ((1 ≤ len) × (offset + len ≤ 16777216)) }
{
    1 <= len && len <= OBJECT_BYTES as usize && offset as usize + len <= OBJECT_BYTES as usize
}

impl Duplicate for Op {
    fn copy(&self) -> Result<Op, NoMemory> {
        match self {
            Op::Touch { name } => Ok(Op::Touch { name: name.copy()? }),
            Op::Write {
                name,
                offset,
                bytes,
            } => Ok(Op::Write {
                name: name.copy()?,
                offset: *offset,
                bytes: bytes.copy()?,
            }),
            Op::Zero {
                name,
                offset,
                length,
            } => Ok(Op::Zero {
                name: name.copy()?,
                offset: *offset,
                length: *length,
            }),
            Op::Truncate { name, size } => Ok(Op::Truncate {
                name: name.copy()?,
                size: *size,
            }),
            Op::Remove { name } => Ok(Op::Remove { name: name.copy()? }),
            Op::SetAttr { name, key, value } => Ok(Op::SetAttr {
                name: name.copy()?,
                key: key.copy()?,
                value: value.copy()?,
            }),
            Op::RmAttr { name, key } => Ok(Op::RmAttr {
                name: name.copy()?,
                key: key.copy()?,
            }),
            Op::RmAttrs { name } => Ok(Op::RmAttrs { name: name.copy()? }),
            Op::OmapSetKeys { name, pairs } => Ok(Op::OmapSetKeys {
                name: name.copy()?,
                pairs: pairs.copy()?,
            }),
            Op::OmapRmKeys { name, keys } => Ok(Op::OmapRmKeys {
                name: name.copy()?,
                keys: keys.copy()?,
            }),
            Op::OmapRmKeyRange {
                name,
                from,
                to,
                bound,
            } => Ok(Op::OmapRmKeyRange {
                name: name.copy()?,
                from: from.copy()?,
                to: to.copy()?,
                bound: *bound,
            }),
            Op::OmapClear { name } => Ok(Op::OmapClear { name: name.copy()? }),
            Op::Read {
                name,
                offset,
                length,
            } => Ok(Op::Read {
                name: name.copy()?,
                offset: *offset,
                length: *length,
            }),
            Op::Stat { name } => Ok(Op::Stat { name: name.copy()? }),
            Op::GetAttr { name, key } => Ok(Op::GetAttr {
                name: name.copy()?,
                key: key.copy()?,
            }),
            Op::GetAttrs { name } => Ok(Op::GetAttrs { name: name.copy()? }),
            Op::OmapGet { name, key } => Ok(Op::OmapGet {
                name: name.copy()?,
                key: key.copy()?,
            }),
            Op::OmapList { name, limit, after } => Ok(Op::OmapList {
                name: name.copy()?,
                limit: *limit,
                after: after.copy()?,
            }),
            Op::List { limit, after } => Ok(Op::List {
                limit: *limit,
                after: after.copy()?,
            }),
        }
    }
}
