//! Transactions of clients on a committed map of objects.
ghost use Rattle.std.specs.Prelude.{◌≡◌, ℕ, ◌+◌, ◌*◌, ◌<◌, ◌≤◌, length, sum_by};
ghost use Rattle.std.specs.Prelude.{List, [], ◌∷◌, ◌++◌};
ghost use Rattle.std.specs.Prelude.{IfOk, OnOk, OnErr, MatchBool, MatchOption, MatchResult};
ghost use Rattle.sea_object.specs.declared.op.Op.{Op};
ghost use Rattle.sea_object.specs.Answer.{after, answer};
ghost use Rattle.sea_object.specs.Objects.{ObjectMap};
ghost use Rattle.sea_object.specs.Op.{IsWithinLimits, data_blocks};
ghost use Rattle.sea_sets.specs.Versions.{AllStand, IsFirstConflict};
ghost use Rattle.sea_transactions.specs.State.{State, HasClient, IsBlank, IsClosed, IsNew, IsOpen};
ghost use Rattle.sea_transactions.specs.State.{Fails, IsRunning, Runs};
ghost use Rattle.sea_transactions.specs.Calls.{Commits, Keeps, Replays, SpellsNothing, Stays};

use sea_base::{Commit, Data, NoMemory};
use sea_object::{Op, Reply};
use sea_sets::Conflict;
use std::alloc::Global;
use thiserror::Error;

/// How an operation of a transaction ended.
#[derive(Clone, Copy, Debug, PartialEq, Eq)]
pub enum Executed {
    /// It was done.
    Done,
    /// It was refused, and with it all that its transaction did.
    Refused,
}

/// Why a transaction was given up within an operation.
#[derive(Clone, Copy, Debug, PartialEq, Eq, Error)]
pub enum ExecFault {
    /// A commit overtook what it read.
    #[error("sent back")]
    SentBack(Conflict),
    /// Memory ran out.
    #[error("no memory")]
    NoMemory,
}

/// The transactions of clients, which count from 1, on a committed map of objects. Each client has
/// one open transaction at most. It reads the committed objects with its own changes over them, and
/// its commit lays these over the committed objects.
pub trait Transactions {
    /// The committed objects, and the open transaction of each client.
    ghost state: { Self → State };

    /// On every map of objects that shares what the client's transaction read, its reply is that to
    /// these operations, and its change is theirs.
    ghost did: { Self → ℕ → List Op → Type 0 };

    /// The client's transaction has the memory that its commit takes.
    ghost ready: { Self → ℕ → Type 0 };

    /// The change that these bytes spell makes the second map of objects of the first.
    ghost lays: { List ℕ → ObjectMap → ObjectMap → Type 0 };

    /// Transactions do this operation.
    ghost serves: { Op → Type 0 };

    /// No object, before any commit, and no open transaction of so many clients.
    fn new(alloc: Global, clients: u32) -> Result<Self, NoMemory>
        ensures { IfOk result (λ new. IsNew clients (state new)) };

    /// Lays the change of an earlier commit over the objects. It is false where the bytes spell no
    /// change; then, and after want of memory, the value is to be given up.
    fn replay(&mut self, commit: Commit, change: &[u8]) -> Result<bool, NoMemory>
        requires later { (state self.old).last.0 < commit.0 }
        requires closed { (client : ℕ) → IsClosed (state self.old) client }
        ensures { IfOk result (λ found. MatchBool found
            (Replays lays commit change.now (state self.old) (state self.new))
            (SpellsNothing lays change.now)) };

    /// Opens a transaction of a client. An older one of that client is forgotten.
    fn begin(&mut self, client: u32) -> Result<(), NoMemory>
        requires { HasClient (state self.old) client }
        ensures blank { OnOk result (IsBlank ((state self.new).transaction client)) }
        ensures did { OnOk result (did self.new client []) }
        ensures closed { OnErr result (IsClosed (state self.new) client) }
        ensures keeps { Keeps state did client self.old self.new };

    /// Does the next operation of a client's transaction. A fault ends the transaction: it is sent
    /// back exactly where an address that it read has another version now than it found, an absence
    /// included, and told the least such address.
    fn exec(&mut self, client: u32, op: &Op) -> Result<Executed, ExecFault>
        requires running { IsRunning ((state self.old).transaction client) }
        requires served { serves op.now }
        requires limits { IsWithinLimits op.now }
        ensures ends { MatchResult result
            (λ end. Runs end ((state self.old).transaction client)
            ((state self.new).transaction client))
            (λ fault. Fails fault ((state self.old).transaction client)
            ((state self.new).transaction client)) }
        ensures did { (ops : List Op) → did self.old client ops →
            OnOk result (did self.new client (ops ++ op.now ∷ [])) }
        ensures keeps { Keeps state did client self.old self.new };

    /// The least address that a client's transaction read and that has another version now than it
    /// found.
    fn sent_back(&self, client: u32) -> Option<Conflict>
        requires { IsOpen (state self.now) client }
        ensures { MatchOption result (AllStand ((state self.now).transaction client).noted)
            (IsFirstConflict ((state self.now).transaction client).noted) };

    /// The bytes of the change that a client's transaction makes, for the record of its commit.
    /// There are none where it changes nothing.
    fn change(&self, client: u32) -> Result<Data, NoMemory>
        requires { IsOpen (state self.now) client }
        ensures { IfOk result (λ bytes. bytes ≡ ((state self.now).transaction client).change) };

    /// Takes the memory that the commit of a client's transaction needs, which then can't fail.
    fn prepare(&mut self, client: u32) -> Result<(), NoMemory>
        requires { IsOpen (state self.old) client }
        ensures ready { OnOk result (ready self.new client) }
        ensures stays { Stays state did client self.old self.new }
        ensures keeps { Keeps state did client self.old self.new };

    /// Commits a client's transaction, that is not to be sent back, and ends it. What it changed
    /// has the commit's number as version.
    fn commit(&mut self, client: u32, commit: Commit) -> Reply
        requires open { IsOpen (state self.old) client }
        requires ready { ready self.old client }
        requires stands { AllStand ((state self.old).transaction client).noted }
        requires later { (state self.old).last.0 < commit.0 }
        ensures reply { result ≡ ((state self.old).transaction client).reply }
        ensures objects { (ops : List Op) → did self.old client ops →
            (state self.new).objects ≡ after ops (state self.old).objects }
        ensures commits { Commits state did client commit self.old self.new };

    /// Ends a client's transaction without a commit.
    fn end(&mut self, client: u32) -> Reply
        requires { IsOpen (state self.old) client }
        ensures reply { result ≡ ((state self.old).transaction client).reply }
        ensures closed { IsClosed (state self.new) client }
        ensures keeps { Keeps state did client self.old self.new };

    /// A transaction that is not to be sent back has the reply of the committed objects as they
    /// are.
    ghost right: { (t : Self) (client : ℕ) (ops : List Op) →
        AllStand ((state t).transaction client).noted → did t client ops →
        ((state t).transaction client).reply ≡ answer ops (state t).objects };

    /// And its change lays over them what its operations do.
    ghost laid: { (t : Self) (client : ℕ) (ops : List Op) →
        AllStand ((state t).transaction client).noted → did t client ops →
        lays ((state t).transaction client).change (state t).objects
        (after ops (state t).objects) };

    /// The change has as many blocks as its operations write, and one for each of them, at most.
    ghost small: { (t : Self) (client : ℕ) (ops : List Op) →
        AllStand ((state t).transaction client).noted → did t client ops →
        length ((state t).transaction client).change
        ≤ 4096 * (sum_by data_blocks ops + length ops) };

    /// Bytes make one map of another.
    ghost one: { (bytes : List ℕ) (objects first second : ObjectMap) →
        lays bytes objects first → lays bytes objects second → first ≡ second };

    /// No bytes change nothing.
    ghost nothing: { (objects others : ObjectMap) → lays [] objects others → others ≡ objects };
}
