//! The entries of the lists in a record's metadata.
ghost use Rattle.std.specs.Prelude.{◌≡◌, ℕ, ◌+◌, ◌≤◌, ◌↔◌, ◌++◌, List, IsTrue, OnOk, IfOk};
ghost use Rattle.std.specs.Prelude.{MatchOption};
ghost use Rattle.sea_record.specs.Entries.{mark_bytes, address_bytes, change_bytes};
ghost use Rattle.sea_record.specs.Parts.{Begins, BeginsWithNo};
ghost use Rattle.sea_record.specs.Record.{IsChange};
ghost use Rattle.sea_record.specs.EntryLaws.{IsMark, IsAddress, IsListed, same_mark, same_address};
ghost use Rattle.sea_record.specs.EntryLaws.{same_change};

use crate::Change;
use sea_base::{
    BLOCK_BYTES, Commit, Data, Delta, Laddr, NoMemory, Sum, push_u16, push_u64, u16_at, u64_at,
};
use std::alloc::Global;

/// An entry of a list.
pub trait Entry: Drop {
    /// Its bytes.
    ghost spelled: { Self → List ℕ };

    /// What may be an entry.
    ghost fits: { Self → Type 0 };

    /// Whose bytes can be appended.
    ghost pushable: { Self → Type 0 };

    /// Appends its bytes.
    fn push(&self, bytes: &mut Vec<u8>) -> Result<(), NoMemory>
        requires { pushable self.now }
        ensures { OnOk result (bytes.new.items ≡ bytes.old.items ++ spelled self.now) };

    /// The entry that the bytes begin with, and the bytes behind it.
    fn read(alloc: Global, bytes: &[u8]) -> Result<Option<(Self, &[u8])>, NoMemory>
        ensures { IfOk result (λ found. MatchOption found
            (BeginsWithNo fits spelled bytes.now)
            (λ f. Begins fits spelled bytes.now f.0 f.1.now)) };

    /// The bytes tell the entry.
    ghost same: { (x y : Self) (rs ss : List ℕ) → fits x → fits y →
        spelled x ++ rs ≡ spelled y ++ ss → (x ≡ y) × (rs ≡ ss) };
}

/// What the metadata says of a placed extent.
#[derive(Clone, Copy, Debug)]
pub struct Mark {
    /// The address.
    pub at: Laddr,
    /// The version of the content.
    pub version: Commit,
    /// The sum of the block.
    pub sum: Sum,
}

/// How many bytes a mark takes.
pub const MARK_BYTES: usize = 24;

/// How many bytes an address takes.
pub const ADDRESS_BYTES: usize = 8;

/// How many bytes of a change stand before those that it puts.
pub const CHANGE_BYTES: usize = 14;

impl Entry for Mark {
    ghost spelled = { λ m. mark_bytes m.at.0 m.version.0 m.sum.0 };

    ghost fits = { IsMark };

    ghost pushable = { λ _. Unit {0} };

    fn push(&self, bytes: &mut Vec<u8>) -> Result<(), NoMemory> {
        push_u64(bytes, self.at.0)?;
        push_u64(bytes, self.version.0)?;
        push_u64(bytes, self.sum.0)?;
        Ok(())
    }

    fn read(_alloc: Global, bytes: &[u8]) -> Result<Option<(Mark, &[u8])>, NoMemory> {
        if bytes.len() < MARK_BYTES {
            return Ok(None);
        }
        let mark = Mark {
            at: Laddr(u64_at(bytes, 0)),
            version: Commit(u64_at(bytes, 8)),
            sum: Sum(u64_at(bytes, 16)),
        };
        Ok(Some((mark, &bytes[MARK_BYTES..])))
    }

    ghost same = { same_mark };
}

impl Entry for Laddr {
    ghost spelled = { address_bytes };

    ghost fits = { IsAddress };

    ghost pushable = { λ _. Unit {0} };

    fn push(&self, bytes: &mut Vec<u8>) -> Result<(), NoMemory> {
        push_u64(bytes, self.0)?;
        Ok(())
    }

    fn read(_alloc: Global, bytes: &[u8]) -> Result<Option<(Laddr, &[u8])>, NoMemory> {
        if bytes.len() < ADDRESS_BYTES {
            return Ok(None);
        }
        Ok(Some((Laddr(u64_at(bytes, 0)), &bytes[ADDRESS_BYTES..])))
    }

    ghost same = { same_address };
}

impl Entry for Change {
    ghost spelled = { change_bytes };

    ghost fits = { IsListed };

    ghost pushable = { IsChange };

    fn push(&self, bytes: &mut Vec<u8>) -> Result<(), NoMemory> {
        push_u64(bytes, self.at.0)?;
        push_u16(bytes, self.delta.cut)?;
        push_u16(bytes, self.delta.gone)?;
        push_u16(bytes, self.delta.put.len() as u16)?;
        bytes.extend_from_slice(self.delta.put.bytes())?;
        Ok(())
    }

    fn read(alloc: Global, bytes: &[u8]) -> Result<Option<(Change, &[u8])>, NoMemory> {
        if bytes.len() < CHANGE_BYTES {
            return Ok(None);
        }
        let cut = u16_at(bytes, 8);
        let gone = u16_at(bytes, 10);
        let count = u16_at(bytes, 12);
        let end = CHANGE_BYTES + count as usize;
        if bytes.len() < end || !is_splice(cut, gone, count) {
            return Ok(None);
        }
        let put = Data::new(alloc, &bytes[CHANGE_BYTES..end])?;
        let change = Change {
            at: Laddr(u64_at(bytes, 0)),
            delta: Delta { cut, gone, put },
        };
        Ok(Some((change, &bytes[end..])))
    }

    ghost same = { same_change };
}

// Whether a splice with so many bytes has room in a block.
fn is_splice(cut: u16, gone: u16, put: u16) -> bool
    ensures { IsTrue result ↔ ((cut + gone ≤ 4096) × (cut + put ≤ 4096)) }
{
    cut as usize + gone as usize <= BLOCK_BYTES && cut as usize + put as usize <= BLOCK_BYTES
}
