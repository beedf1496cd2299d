//! The committed objects, and which open transactions a commit overtakes.
ghost use Rattle.std.specs.Prelude.{◌≡◌, ℕ, ◌<◌, ◌∷◌, [], ◌++◌, List, Some, None, false, drop};
ghost use Rattle.std.specs.Prelude.{IfOk, OnOk, IfSome, IfNone, MatchOption};
ghost use Rattle.std.specs.List.{AllByRecursion};
ghost use Rattle.std.specs.Option.{option_copied};
ghost use Rattle.std.specs.FinMap as map;
ghost use Rattle.sea_object.specs.declared.op.Op.{Op};
ghost use Rattle.sea_object.specs.Answer.{item};
ghost use Rattle.sea_object.specs.Op.{IsWithinLimits};
ghost use Rattle.sea_sets.specs.Board.{HasClient, HasNoConflict, Ends, IsConflict, IsEmpty, IsOpen};
ghost use Rattle.sea_sets.specs.Board.{is_open_in, noted, place_of};
ghost use Rattle.sea_pieces.specs.Committed.{VersionMap, version_of, with_pieces};
ghost use Rattle.sea_pieces.specs.Spelling.{IsPiece};
ghost use Rattle.sea_pieces.specs.Laying.{IsServed, after_pieces, op_pieces, read_name};
ghost use Rattle.sea_pieces.specs.Noted.{AreBefore, AreMarked, AreNoted, AreUpTo};
ghost use Rattle.sea_pieces.specs.Met.{AreMet};
ghost use Rattle.sea_pieces.specs.Transaction.{Did, Done};

use crate::late::Late;
use crate::{Addresses, Committed, Piece, Pieces, Transaction};
use sea_base::{Commit, Name, NoMemory};
use sea_object::Op;
use sea_sets::{Board, Change, Conflict};
use std::alloc::Global;

/// The committed objects, the addresses of their names, what the open transactions read, and the
/// number of the last commit. Pieces of the last commit for which memory was wanting are kept, and
/// laid over their objects by the next call that takes memory.
#[derive(Debug, Drop)]
pub struct PieceStore {
    alloc: Global,
    committed: Committed,
    late: Late,
    addresses: Addresses,
    board: Board,
    last: Commit,
    ghost versions: { AreUpTo last (with_pieces last late committed) },
    ghost notes: { AreNoted (with_pieces last late committed) addresses last board },
}

impl PieceStore {
    ghost use Rattle.sea_pieces.specs.Store.{Continues, Grows, IsPrepared, IsStable};
    ghost use Rattle.sea_pieces.specs.Store.{KeepsAll, KeepsOthers, NotesAtMost, NotesName};
    ghost use Rattle.sea_pieces.specs.Store.{objects_of_store, versions_of};

    /// The store of objects as the last commit left them, for so many clients, without open
    /// transactions.
    pub fn new(
        alloc: Global,
        committed: Committed,
        last: Commit,
        clients: u32,
    ) -> Result<PieceStore, NoMemory>
        requires { AreUpTo last committed }
        ensures versions { IfOk result (λ store. versions_of store ≡ committed) }
        ensures last { IfOk result (λ store. store.last ≡ last) }
        ensures closed { IfOk result (λ store. IsEmpty clients store.board) }
    {
        let board = Board::new(alloc, clients)?;
        Ok(PieceStore {
            alloc,
            committed,
            late: Late::new(alloc),
            addresses: Addresses::new(alloc),
            board,
            last,
        })
    }

    /// Lays the pieces of an earlier commit over the objects, while no transaction is open. After
    /// want of memory the store is to be given up.
    pub fn replay(&mut self, commit: Commit, change: Pieces) -> Result<(), NoMemory>
        requires later { self.old.last.0 < commit.0 }
        requires closed { (client : ℕ) → is_open_in (place_of self.old.board client) ≡ false }
        requires pieces { AllByRecursion IsPiece change }
        ensures versions { OnOk result
            (versions_of self.new ≡ with_pieces commit change (versions_of self.old)) }
        ensures last { OnOk result (self.new.last ≡ commit) }
        ensures board { self.new.board ≡ self.old.board }
    {
        self.settle()?;
        self.last = commit;
        self.late = Late::of(change);
        self.settle()
    }

    // Lays the late pieces over their objects.
    fn settle(&mut self) -> Result<(), NoMemory>
        ensures settled { OnOk result (self.new.late ≡ []) }
        ensures grows { Grows self.old self.new }
        ensures addresses { self.new.addresses ≡ self.old.addresses }
    {
        for _ in 0..self.late.len() {
            self.settle_one()?;
        }
        Ok(())
    }

    // Lays the first late piece over its object, if one is late.
    fn settle_one(&mut self) -> Result<(), NoMemory>
        ensures passed { OnOk result (self.new.late ≡ drop 1 self.old.late) }
        ensures grows { Grows self.old self.new }
        ensures addresses { self.new.addresses ≡ self.old.addresses }
    {
        let Some(piece) = self.late.first() else {
            return Ok(());
        };
        self.committed.lay(self.last, piece)?;
        self.late.pass();
        Ok(())
    }

    /// Opens a transaction of a client. An older one of that client is forgotten. It takes no
    /// memory.
    pub fn begin(&mut self, client: u32) -> Transaction
        requires { HasClient self.old.board client }
        ensures open { IsOpen self.new.board client }
        ensures blank { (at : ℕ) → noted self.new.board client at ≡ None }
        ensures nothing { result ≡ record { items = []; pieces = [] } }
        ensures stable { IsStable self.new client [] result }
        ensures others { KeepsOthers client self.old self.new }
        ensures continues { Continues client self.old self.new }
    {
        self.board.begin(client);
        Transaction::new(self.alloc)
    }

    /// Does an operation of a client's transaction, and notes what it reads. After want of memory
    /// the transaction is to be given up.
    pub fn exec(
        &mut self,
        client: u32,
        transaction: &mut Transaction,
        op: &Op,
    ) -> Result<(), NoMemory>
        requires open { IsOpen self.old.board client }
        requires served { IsServed op.now }
        requires limits { IsWithinLimits op.now }
        ensures items { OnOk result (transaction.new.items ≡ transaction.old.items
            ++ item op.now (after_pieces transaction.old.pieces (objects_of_store self.old)) ∷ []) }
        ensures pieces { OnOk result
            (transaction.new.pieces ≡ transaction.old.pieces ++ op_pieces op.now) }
        ensures stable { (ops : List Op) → IsStable self.old client ops transaction.old →
            OnOk result (IsStable self.new client (ops ++ op.now ∷ []) transaction.new) }
        ensures notes { NotesAtMost (read_name op.now) client self.old self.new }
        ensures others { KeepsOthers client self.old self.new }
        ensures continues { Continues client self.old self.new }
    {
        self.settle()?;
        if let Some(name) = name_read(op) {
            self.note(client, name)?;
        }
        transaction.exec(&self.committed, op)
    }

    // Notes that a client's transaction reads the object of this name.
    fn note(&mut self, client: u32, name: &Name) -> Result<(), NoMemory>
        requires open { IsOpen self.old.board client }
        requires settled { self.old.late ≡ [] }
        ensures noted { OnOk result (NotesName client name.now self.old self.new) }
        ensures notes { NotesAtMost (Some name.now) client self.old self.new }
        ensures continues { Continues client self.old self.new }
        ensures committed { self.new.committed ≡ self.old.committed }
        ensures settled { self.new.late ≡ [] }
    {
        let at = self.addresses.meet(name)?;
        let seen = self.committed.version(name);
        self.board.note_read(client, at, seen)
    }

    /// Gives addresses to the names of a commit's pieces, and lays the late ones of the commit
    /// before. A commit of these pieces then takes no memory.
    pub fn prepare(&mut self, change: &[Piece]) -> Result<(), NoMemory>
        ensures prepared { OnOk result (IsPrepared change.now self.new) }
        ensures grows { Grows self.old self.new }
    {
        self.settle()?;
        for piece in change {
            self.addresses.meet(&piece.name)?;
        }
        Ok(())
    }

    /// Commits the pieces of a client's transaction under a number past that of the last commit:
    /// they are laid over the committed objects, each of which then has that version. It closes the
    /// transaction.
    pub fn commit(&mut self, client: u32, commit: Commit, change: Pieces)
        requires client { HasClient self.old.board client }
        requires later { self.old.last.0 < commit.0 }
        requires pieces { AllByRecursion IsPiece change }
        requires prepared { IsPrepared change self.old }
        ensures versions { versions_of self.new ≡ with_pieces commit change (versions_of self.old) }
        ensures last { self.new.last ≡ commit }
        ensures closed { is_open_in (place_of self.new.board client) ≡ false }
        ensures marks { AreMarked client commit self.old.board self.new.board }
        ensures others { KeepsOthers client self.old self.new }
    {
        self.board.end(client);
        mark(&self.addresses, &mut self.board, commit, change.items());
        self.last = commit;
        self.late = Late::of(change);
        // Where memory runs out the pieces are late: the next call that takes memory lays them.
        let _ = self.settle();
    }

    /// The least address that a client's transaction read and whose object no longer has the
    /// version that was found, an absence included. Without one, the transaction did its operations
    /// on the committed objects as they are.
    pub fn is_sent_back(&self, client: u32) -> Option<Conflict>
        requires { HasClient self.now.board client }
        ensures sent { MatchOption result (HasNoConflict self.now.board client)
            (IsConflict self.now.board client) }
        ensures current { IfSome result (λ conflict. (name : List ℕ) →
            map.get self.now.addresses name ≡ Some conflict.at.0 →
            conflict.current ≡ version_of (versions_of self.now) name) }
        ensures did { IfNone result ((ops : List Op) (done : Done) →
            IsStable self.now client ops done → Did ops done (objects_of_store self.now)) }
    {
        self.board.sent_back(client)
    }

    /// Closes a client's transaction.
    pub fn end(&mut self, client: u32)
        requires { HasClient self.old.board client }
        ensures closed { Ends client self.old.board self.new.board }
        ensures others { KeepsOthers client self.old self.new }
        ensures continues { Continues client self.old self.new }
    {
        self.board.end(client);
    }
}

// Moves the version of each piece's object on in all notes.
fn mark(addresses: &Addresses, board: &mut Board, commit: Commit, change: &[Piece])
    requires met { AreMet change.now addresses.now }
    ensures noted { (m : VersionMap) → AreNoted m addresses.now commit board.old →
        AreNoted (with_pieces commit change.now m) addresses.now commit board.new }
    ensures marked { AreMarked 0 commit board.old board.new }
{
    for piece in change {
        if let Some(at) = addresses.of(&piece.name) {
            board.mark(0, commit, &[Change { at, gone: false }]);
        }
    }
}

// The name of the object that an operation reads.
fn name_read(op: &Op) -> Option<&Name>
    requires { IsServed op.now }
    ensures { option_copied result ≡ read_name op.now }
{
    match op {
        Op::Read { name, .. } => Some(name),
        Op::Stat { name } => Some(name),
        _ => None,
    }
}
