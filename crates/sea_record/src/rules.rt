//! The rules that the fields of a record keep.
ghost use Rattle.std.specs.Prelude.{◌≡◌, ◌≤◌, ◌↔◌, ◌^◌, ◌<◌, map, length, take, All, IsTrue, IfOk};
ghost use Rattle.sea_base.specs.Digest.{sha256};
ghost use Rattle.sea_base.specs.Field.{big_endian};
ghost use Rattle.sea_record.specs.Parts.{Fits, HasNumbers, HasSum};
ghost use Rattle.sea_record.specs.Record.{IsRecord, IsOfKind, HasAddresses, placed_at, dropped_at};
ghost use Rattle.sea_record.specs.Record.{changed_at, listed};

use crate::addresses::are_ordered;
use crate::{Body, Kind, Placed, Record};
use sea_base::{Commit, Laddr, NoMemory, sum_of};
use std::alloc::Global;

/// How many nodes a record has at most.
const NODES: usize = 35;

/// How many extents a shift places at most.
const SHIFTED: usize = 32;

/// Whether the fields of a record keep the rules, whose form was read.
pub fn is_record(alloc: Global, record: &Record) -> Result<bool, NoMemory>
    requires { Fits record.now }
    ensures { IfOk result (λ yes. IsTrue yes ↔ IsRecord record.now) }
{
    let body = &record.body;
    if !has_numbers(record) || !is_of_kind(body, record.commit) || !have_sums(body.placed.items()) {
        return Ok(false);
    }
    has_addresses(alloc, body, record.root.next)
}

// Whether the numbers in the header are within their bounds.
fn has_numbers(record: &Record) -> bool
    ensures { IsTrue result ↔ HasNumbers record.now }
{
    record.mount >= 1
        && record.mount < 1 << 63
        && record.seq >= 1
        && record.seq < 1 << 63
        && record.place.0 < 1 << 24
        && record.commit.0 >= 1
        && record.commit.0 < 1 << 63
}

// Whether the body holds what its kind may hold.
fn is_of_kind(body: &Body, commit: Commit) -> bool
    ensures { IsTrue result ↔ IsOfKind body.now.kind commit.0 body.now }
{
    let placed = body.placed.items();
    match body.kind {
        Kind::Mount => body.lists_nothing() && body.has_no_nodes() && body.has_no_plain(),
        Kind::Client => {
            !body.lists_nothing()
                && placed.iter().all(|p| p.version.0 == commit.0)
                && body.has_no_nodes()
                && body.has_no_plain()
        }
        Kind::Shift => {
            !placed.is_empty()
                && placed.len() <= SHIFTED
                && placed
                    .iter()
                    .all(|p| p.version.0 >= 1 && p.version.0 < commit.0)
                && body.dropped.items().is_empty()
                && body.changes.items().is_empty()
                && body.has_no_nodes()
                && body.has_no_plain()
        }
        Kind::Nodes => {
            body.nodes.items().len() <= NODES && body.lists_nothing() && body.has_no_plain()
        }
        Kind::Plain => body.plain.len() >= 1 && body.lists_nothing() && body.has_no_nodes(),
    }
}

impl Body {
    /// Whether nothing is placed, dropped or changed.
    pub(crate) fn lists_nothing(&self) -> bool
        ensures { IsTrue result ↔ (listed self.now ≡ 0) }
    {
        self.placed.items().is_empty()
            && self.dropped.items().is_empty()
            && self.changes.items().is_empty()
    }

    fn has_no_nodes(&self) -> bool
        ensures { IsTrue result ↔ (length self.now.nodes ≡ 0) }
    {
        self.nodes.items().is_empty()
    }

    fn has_no_plain(&self) -> bool
        ensures { IsTrue result ↔ (length self.now.plain ≡ 0) }
    {
        self.plain.len() == 0
    }
}

// Whether each placed block has the sum that is said of it.
fn have_sums(placed: &[Placed]) -> bool
    ensures { IsTrue result ↔ All HasSum placed.now }
{
    placed.iter().all(|p| has_sum(p))
}

// Whether a placed block has the sum that is said of it.
#[tactic(auto, using(crate::proofs::Sums::same_sum))]
fn has_sum(placed: &Placed) -> bool
    ensures { IsTrue result ↔ HasSum placed.now }
{
    let kept = placed.sum.0;
    sum_of(&placed.block).0 == kept
}

// Whether the addresses were given, are in order, and each is in one list alone.
fn has_addresses(alloc: Global, body: &Body, next: Laddr) -> Result<bool, NoMemory>
    ensures { IfOk result (λ yes. IsTrue yes ↔ HasAddresses next.0 body.now) }
{
    let placed = body.placed_at(alloc)?;
    let dropped = body.dropped_at(alloc)?;
    let changed = body.changed_at(alloc)?;
    Ok(are_ordered(next.0, &placed, &dropped, &changed))
}

impl Body {
    fn placed_at(&self, alloc: Global) -> Result<Vec<u64>, NoMemory>
        ensures { IfOk result (λ at. at.items ≡ placed_at self.now) }
    {
        let mut at = Vec::with_capacity(alloc, self.placed.items().len())?;
        for placed in self.placed.items() {
            at.push(placed.at.0)?;
        }
        Ok(at)
    }

    fn dropped_at(&self, alloc: Global) -> Result<Vec<u64>, NoMemory>
        ensures { IfOk result (λ at. at.items ≡ dropped_at self.now) }
    {
        let mut at = Vec::with_capacity(alloc, self.dropped.items().len())?;
        for dropped in self.dropped.items() {
            at.push(dropped.0)?;
        }
        Ok(at)
    }

    fn changed_at(&self, alloc: Global) -> Result<Vec<u64>, NoMemory>
        ensures { IfOk result (λ at. at.items ≡ changed_at self.now) }
    {
        let mut at = Vec::with_capacity(alloc, self.changes.items().len())?;
        for change in self.changes.items() {
            at.push(change.at.0)?;
        }
        Ok(at)
    }
}
