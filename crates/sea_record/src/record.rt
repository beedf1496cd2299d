//! What a record holds.
ghost use Rattle.std.specs.Prelude.{◌≡◌, ◌↔◌, IsTrue, IfSome, IfNone};
ghost use Rattle.sea_record.specs.Header.{kind_number};

use sea_base::{
    Addresses, Block, Commit, Data, Delta, Digest, Laddr, Paddr, Root, Sequence, Sum, Tail,
};

/// What a record is for.
#[derive(Clone, Copy, Debug, PartialEq, Eq)]
pub enum Kind {
    /// Number 1: the store was opened.
    Mount,
    /// Number 2: a transaction was committed.
    Client,
    /// Number 3: extents were placed anew, as they were.
    Shift,
    /// Number 4: nodes of the physical trees were written.
    Nodes,
    /// Number 9: bytes that the record doesn't look into.
    Plain,
}

/// A block that a record places.
#[derive(Debug, Drop)]
pub struct Placed {
    /// The address whose content it is.
    pub at: Laddr,
    /// The version of that content.
    pub version: Commit,
    /// The block's sum.
    pub sum: Sum,
    /// The block.
    pub block: Block,
}

/// A splice of the content of an address.
#[derive(Debug, PartialEq, Eq, Drop)]
pub struct Change {
    /// The address.
    pub at: Laddr,
    /// The splice.
    pub delta: Delta,
}

/// What a record does.
#[derive(Debug, Drop)]
pub struct Body {
    /// What the record is for.
    pub kind: Kind,
    /// The blocks placed, by rising addresses.
    pub placed: Sequence<Placed>,
    /// Nodes of the physical trees.
    pub nodes: Sequence<Block>,
    /// The addresses that hold nothing from now on, rising.
    pub dropped: Addresses,
    /// The splices, by addresses that never fall. Several of one address apply in this order.
    pub changes: Sequence<Change>,
    /// The bytes of a plain record. Other records have none.
    pub plain: Data,
}

/// A record of the journal.
#[derive(Debug, Drop)]
pub struct Record {
    /// How often the store had been opened, from 1 on.
    pub mount: u64,
    /// The sequence number of its segment, from 1 on.
    pub seq: u64,
    /// The block at which it begins.
    pub place: Paddr,
    /// Its number, from 1 on.
    pub commit: Commit,
    /// The first record that is still needed.
    pub tail: Tail,
    /// The roots of the physical trees, and the next address.
    pub root: Root,
    /// The digest of the record before it, or of its segment's header where it is the first there.
    pub prev: Digest,
    /// What it does.
    pub body: Body,
}

impl Kind {
    /// The number that stands for the kind.
    pub fn number(self) -> u32
        ensures { result ≡ kind_number self }
    {
        match self {
            Kind::Mount => 1,
            Kind::Client => 2,
            Kind::Shift => 3,
            Kind::Nodes => 4,
            Kind::Plain => 9,
        }
    }

    /// The kind that a number stands for.
    pub fn numbered(number: u32) -> Option<Kind>
        ensures some { IfSome result (λ kind. kind_number kind ≡ number) }
        ensures none { IfNone result ((kind : Kind) → kind_number kind ≡ number → ⊥) }
    {
        match number {
            1 => Some(Kind::Mount),
            2 => Some(Kind::Client),
            3 => Some(Kind::Shift),
            4 => Some(Kind::Nodes),
            9 => Some(Kind::Plain),
            _ => None,
        }
    }

    /// Whether a record of this kind holds plain bytes.
    pub fn is_plain(self) -> bool
        ensures { IsTrue result ↔ (self ≡ Kind.Plain) }
    {
        matches!(self, Kind::Plain)
    }
}
