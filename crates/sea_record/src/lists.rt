//! The metadata of a record.
ghost use Rattle.std.specs.Prelude.{◌≡◌, ◌↔◌, IsTrue, IfOk, MatchOption};
ghost use Rattle.sea_record.specs.Parts.{IsMetadata, IsNoMetadata, listed_in};

use crate::entry::Mark;
use crate::list::read_list;
use crate::{Change, Kind};
use sea_base::{Addresses, Data, NoMemory, Sequence};
use std::alloc::Global;

/// What the metadata of a record says.
#[derive(Debug, Drop)]
pub struct Metadata {
    /// Of each placed extent.
    pub marks: Sequence<Mark>,
    /// The dropped addresses.
    pub dropped: Addresses,
    /// The changes.
    pub changes: Sequence<Change>,
    /// The bytes of a plain record.
    pub plain: Data,
}

/// The metadata that the bytes spell in a record of this kind, if they spell some.
pub fn read_metadata(alloc: Global, kind: Kind, bytes: &[u8]) -> Result<Option<Metadata>, NoMemory>
    ensures { IfOk result (λ found.
        MatchOption found (IsNoMetadata kind bytes.now) (IsMetadata kind bytes.now)) }
{
    if kind.is_plain() || bytes.is_empty() {
        return Ok(Some(Metadata {
            marks: Sequence::new(alloc),
            dropped: Sequence::new(alloc),
            changes: Sequence::new(alloc),
            plain: Data::new(alloc, bytes)?,
        }));
    }
    let Some((marks, rest)) = read_list(alloc, bytes)? else {
        return Ok(None);
    };
    let Some((dropped, rest)) = read_list(alloc, rest)? else {
        return Ok(None);
    };
    let Some((changes, rest)) = read_list(alloc, rest)? else {
        return Ok(None);
    };
    let metadata = Metadata {
        marks,
        dropped,
        changes,
        plain: Data::new(alloc, rest)?,
    };
    if !rest.is_empty() || metadata.lists_nothing() {
        return Ok(None);
    }
    Ok(Some(metadata))
}

impl Metadata {
    // Whether nothing is placed, dropped or changed.
    fn lists_nothing(&self) -> bool
        ensures { IsTrue result ↔ (listed_in self.now ≡ 0) }
    {
        self.marks.items().is_empty()
            && self.dropped.items().is_empty()
            && self.changes.items().is_empty()
    }
}
