//! What one transaction noted of the addresses that it read.
ghost use Rattle.std.specs.Prelude.{◌≡◌, ◌≢◌, false, MatchBool};
ghost use Rattle.sea_sets.specs.Versions.{IsQuiet, version_left};

use sea_base::{Commit, Laddr, NoMemory};
use std::alloc::Global;
use std::collections::BTreeMap;

/// A version that a transaction found at an address when it first read it, and the version there
/// now. None stands for an address that holds nothing.
#[derive(Clone, Copy, Debug, PartialEq, Eq)]
pub struct Note {
    pub seen: Option<Commit>,
    pub current: Option<Commit>,
}

/// An address that a commit changed, and whether nothing is left there.
#[derive(Clone, Copy, Debug, PartialEq, Eq)]
pub struct Change {
    pub at: Laddr,
    pub gone: bool,
}

impl Change {
    // The version that a commit leaves at the address.
    pub(crate) fn version(self, commit: Commit) -> Option<Commit>
        ensures { result ≡ version_left commit self }
    {
        if self.gone { None } else { Some(commit) }
    }
}

impl Note {
    // Another version stands there now than the one that was found.
    fn has_moved(&self) -> bool
        ensures { MatchBool result (self.now.current ≢ self.now.seen) (self.now.current ≡ self.now.seen) }
    {
        self.seen != self.current
    }
}

/// The notes of an open transaction, by address.
#[derive(Debug, Drop)]
pub(crate) struct Notes {
    notes: BTreeMap<u64, Note>,
    // a note may have moved
    marked: bool,
    ghost quiet: { marked ≡ false → IsQuiet notes },
}

impl Notes {
    ghost use Rattle.std.specs.Prelude.{ℕ, [], ◌∷◌, None, OnOk, OnErr, IfSome, IfNone};
    ghost use Rattle.sea_sets.specs.Notes.{IsFirstMoved, Notices, StandStill, note_at};
    ghost use Rattle.sea_sets.specs.Versions.{Stands, moved_on};

    /// No notes. It takes no memory.
    pub(crate) fn new(alloc: Global) -> Notes
        ensures { (at : ℕ) → note_at result at ≡ None }
    {
        Notes {
            notes: BTreeMap::new(alloc),
            marked: false,
        }
    }

    /// Notes the version found at an address, where nothing is noted of it yet.
    pub(crate) fn add(&mut self, at: Laddr, seen: Option<Commit>) -> Result<(), NoMemory>
        ensures ok { OnOk result (Notices at.0 seen self.old self.new) }
        ensures err { OnErr result (StandStill self.old self.new) }
    {
        if !self.notes.contains_key(&at.0) {
            self.notes.insert(
                at.0,
                Note {
                    seen,
                    current: seen,
                },
            )?;
        }
        Ok(())
    }

    /// Notes what a commit left at the addresses that it changed.
    pub(crate) fn mark(&mut self, commit: Commit, changed: &[Change])
        ensures { (at : ℕ) → note_at self.new at
            ≡ moved_on commit changed.now at (note_at self.old at) }
    {
        for change in changed {
            self.mark_one(commit, *change);
        }
    }

    fn mark_one(&mut self, commit: Commit, change: Change)
        ensures { (at : ℕ) → note_at self.new at
            ≡ moved_on commit (change ∷ []) at (note_at self.old at) }
    {
        if let Some(note) = self.notes.get_mut(&change.at.0) {
            note.current = change.version(commit);
            self.marked = true;
        }
    }

    /// The note of the least address whose version has moved.
    pub(crate) fn first_moved(&self) -> Option<(u64, Note)>
        ensures some { IfSome result (λ found. IsFirstMoved self.now found.0 found.1) }
        ensures none { IfNone result ((at : ℕ) → Stands (note_at self.now at)) }
    {
        if !self.marked {
            return None;
        }
        for (at, note) in &self.notes {
            if note.has_moved() {
                return Some((*at, *note));
            }
        }
        None
    }
}
