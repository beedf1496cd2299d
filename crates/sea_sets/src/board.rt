//! The open transactions of all clients.
ghost use Rattle.std.specs.Prelude.{◌+◌, MatchOption, OnOk, OnErr, IfOk};
ghost use Rattle.sea_sets.specs.Board.{Begins, Ends, HasClient, HasNoConflict, IsConflict, IsEmpty, IsOpen, Marks, MovesOn, NotesNothing, NotesRead, OthersStay, place_of};

use crate::notes::{Change, Notes};
use sea_base::{Commit, Laddr, NoMemory};
use std::alloc::Global;

/// A read that a commit overtook: its address, the version that it found, and the one there now.
#[derive(Clone, Copy, Debug, PartialEq, Eq)]
pub struct Conflict {
    pub at: Laddr,
    pub seen: Option<Commit>,
    pub current: Option<Commit>,
}

/// The open transactions of clients, which count from 1, and the versions that each one found where
/// it read.
#[derive(Debug, Drop)]
pub struct Board {
    transactions: Vec<Option<Notes>>,
}

impl Board {
    /// A board for so many clients, without open transactions.
    pub fn new(alloc: Global, clients: u32) -> Result<Board, NoMemory>
        ensures { IfOk result (IsEmpty clients) }
    {
        let mut transactions = Vec::new(alloc);
        for _ in 0..clients {
            transactions.push(None)?;
        }
        Ok(Board { transactions })
    }

    /// Opens a transaction of a client. An older one of that client is forgotten. It takes no
    /// memory.
    pub fn begin(&mut self, client: u32)
        requires { HasClient self.old client }
        ensures { Begins client self.old self.new }
    {
        let notes = Notes::new(*self.transactions.allocator());
        self.transactions[client as usize - 1] = Some(notes);
    }

    /// Notes the version that a client's transaction found at an address. Where it read the address
    /// before, the first note stays.
    pub fn note_read(
        &mut self,
        client: u32,
        at: Laddr,
        seen: Option<Commit>,
    ) -> Result<(), NoMemory>
        requires { IsOpen self.old client }
        ensures ok { OnOk result (NotesRead client at.0 seen self.old self.new) }
        ensures err { OnErr result (NotesNothing client self.old self.new) }
    {
        match &mut self.transactions[client as usize - 1] {
            Some(notes) => notes.add(at, seen),
            None => unreachable!(),
        }
    }

    /// Closes a client's transaction.
    pub fn end(&mut self, client: u32)
        requires { HasClient self.old client }
        ensures { Ends client self.old self.new }
    {
        self.transactions[client as usize - 1] = None;
    }

    /// Notes what a commit left at the addresses that it changed, for each transaction but the
    /// committer's. It takes no memory.
    pub fn mark(&mut self, committer: u32, commit: Commit, changed: &[Change])
        ensures { Marks committer commit changed.now self.old self.new }
    {
        for place in 0..self.transactions.len() {
            if place + 1 != committer as usize {
                self.mark_one(place, commit, changed);
            }
        }
    }

    // The same for the transaction in one place.
    fn mark_one(&mut self, place: usize, commit: Commit, changed: &[Change])
        requires { HasClient self.old (place + 1) }
        ensures moves { MovesOn commit changed.now (place_of self.old (place + 1))
            (place_of self.new (place + 1)) }
        ensures others { OthersStay (place + 1) self.old self.new }
    {
        if let Some(notes) = &mut self.transactions[place] {
            notes.mark(commit, changed);
        }
    }

    /// The least address that a client's transaction read and whose version is no longer the one
    /// that it found, an absence included.
    pub fn sent_back(&self, client: u32) -> Option<Conflict>
        requires { HasClient self.now client }
        ensures { MatchOption result (HasNoConflict self.now client) (IsConflict self.now client) }
    {
        let notes = self.transactions[client as usize - 1].as_ref()?;
        let (at, note) = notes.first_moved()?;
        Some(Conflict {
            at: Laddr(at),
            seen: note.seen,
            current: note.current,
        })
    }
}
