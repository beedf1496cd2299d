//! The objects that records make.
ghost use Rattle.std.specs.Prelude.{◌≡◌, ℕ, ◌<◌, ◌≤◌, ◌↔◌, IsTrue, IfOk, IfErr, MatchBool};
ghost use Rattle.std.specs.FinMap as map;
ghost use Rattle.sea_transactions.specs.State.{IsClosed};
ghost use Rattle.sea_engine.specs.Opens.{AreRising, Makes};
ghost use Rattle.sea_engine.specs.Replay.{IsCause, IsReplayed, last_number};
ghost use Rattle.sea_record.specs.declared.record.Kind.TheVariants.{Plain};
ghost use Rattle.sea_transactions.specs.Calls.{SpellsNothing};

use sea_base::{Commit, NoMemory, Paddr};
use sea_record::Record;
use sea_transactions::Transactions;
use std::alloc::Global;

/// Why records made no objects.
#[derive(Clone, Copy, Debug, PartialEq, Eq)]
pub enum ReplayFault {
    NoMemory,
    /// The bytes of the record at this block spell no change.
    Strange { block: Paddr },
}

impl From<NoMemory> for ReplayFault {
    ghost use Rattle.sea_engine.specs.declared.replay.ReplayFault.TheVariants.{NoMemory};

    ghost from_gives = { λ _ fault. fault ≡ NoMemory };

    fn from(_: NoMemory) -> Self {
        ReplayFault::NoMemory
    }
}

/// Whether each record has a greater number than the one before.
pub fn are_rising(records: &[Record]) -> bool
    ensures { IsTrue result ↔ AreRising 0 records.now }
{
    let mut last = Commit(0);
    for record in records {
        if record.commit.0 <= last.0 {
            return false;
        }
        last = record.commit;
    }
    true
}

/// The number of the last record, or 0 where there is none.
pub(crate) fn last_of(records: &[Record]) -> Commit
    ensures { result.0 ≡ last_number 0 records.now }
{
    let mut last = Commit(0);
    for record in records {
        last = record.commit;
    }
    last
}

// Lays what a record changes over the objects. It is false where its bytes spell no change.
fn replay<T: Transactions>(transactions: &mut T, record: &Record) -> Result<bool, NoMemory>
    requires later { (T.state transactions.old).last.0 < record.now.commit.0 }
    requires closed { (client : ℕ) → IsClosed (T.state transactions.old) client }
    ensures { IfOk result (λ found. MatchBool found
        (IsReplayed T.lays record.now (T.state transactions.old) (T.state transactions.new))
        ((record.now.body.kind ≡ Plain) × SpellsNothing T.lays record.now.body.plain)) }
{
    if !record.body.kind.is_plain() {
        return Ok(true);
    }
    transactions.replay(record.commit, record.body.plain.bytes())
}

/// The committed objects that records make, with no open transaction of so many clients.
pub fn replayed<T: Transactions + Drop>(
    alloc: Global,
    clients: u32,
    records: &[Record],
) -> Result<T, ReplayFault>
    requires rising { AreRising 0 records.now }
    ensures made { IfOk result (λ t. Makes T.lays records.now map.empty (T.state t).objects) }
    ensures clients { IfOk result (λ t. (T.state t).clients ≡ clients) }
    ensures closed { IfOk result (λ t. (client : ℕ) → IsClosed (T.state t) client) }
    ensures last { IfOk result (λ t. (T.state t).last.0 ≤ last_number 0 records.now) }
    ensures cause { IfErr result (IsCause T.lays records.now) }
{
    let mut transactions = T::new(alloc, clients)?;
    for record in records {
        if !replay(&mut transactions, record)? {
            return Err(ReplayFault::Strange {
                block: record.place,
            });
        }
    }
    Ok(transactions)
}
