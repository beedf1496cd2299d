//! What an engine finds on a device.
ghost use Rattle.std.specs.Prelude.{◌≡◌, ◌<◌, ◌≤◌, ◌↔◌, ℕ, List, Some, length, map};
ghost use Rattle.std.specs.Prelude.{IfErr, IfOk, IsTrue, MatchOption};
ghost use Rattle.std.specs.List.{All};
ghost use Rattle.sea_engine.specs.Engine.{phase_at, phases_from};
ghost use Rattle.sea_engine.specs.Mounting.{AreLeft, IsFromTail, IsUnopened, IsUsedUp, UsesNoOther};
ghost use Rattle.sea_engine.specs.Reading.{IsQuiet, IsRead};
ghost use Rattle.sea_engine.specs.Turns.{at_rest, first_phase, request_after};
ghost use Rattle.sea_history.specs.Plan.{IsClientOf};
ghost use Rattle.sea_history.specs.Record.{empty_record};
ghost use Rattle.sea_journal.specs.Opening.{IsFound};
ghost use Rattle.sea_journal.specs.Resume.{CanResume, opened};
ghost use Rattle.sea_journal.specs.Rolls.{InTable};
ghost use Rattle.sea_object.specs.declared.reply.Reply.{Reply};
ghost use Rattle.sea_trail.specs.Trail.{IsTrail};
ghost use Rattle.sea_transactions.specs.State.{Transaction};

use crate::fault::{MountFault, Number, Spent};
use crate::reading::read_image;
use crate::state::ClientState;
use sea_base::{Commit, NoMemory};
use sea_device::Device;
use sea_history::{History, Plan};
use sea_segment::{Header, SegState, Table};
use sea_trail::Trail;
use sea_transactions::Transactions;
use std::alloc::Global;

// A number from this one on is used up.
const LIMIT: u64 = 1 << 62;

/// The first of these numbers that is used up.
pub(crate) fn spent(commit: Commit, mount: u64, seq: u64) -> Option<Spent>
    ensures { MatchOption result (AreLeft commit.0 mount seq) (IsUsedUp commit.0 mount seq) }
{
    if commit.0 >= LIMIT {
        return Some(Spent {
            which: Number::Commit,
            at: commit.0,
        });
    }
    if mount >= LIMIT {
        return Some(Spent {
            which: Number::Mount,
            at: mount,
        });
    }
    if seq >= LIMIT {
        return Some(Spent {
            which: Number::Seq,
            at: seq,
        });
    }
    None
}

/// The state of a client that is not at work, of whose requests so many are entered.
pub(crate) fn rested(plan: &Plan, client: u32, served: u32) -> ClientState
    requires { IsClientOf client plan.now }
    ensures { (reply : Reply) → phase_at result reply ≡ at_rest (request_after client served plan.now) }
{
    if served < plan.count(client) {
        ClientState::Waiting
    } else {
        ClientState::Idle
    }
}

/// The states of clients of whose requests none is entered.
pub(crate) fn first_states(alloc: Global, plan: &Plan) -> Result<Vec<ClientState>, NoMemory>
    ensures { IfOk result (λ states. (transaction : ℕ → Transaction)
        → phases_from 1 states.items transaction ≡ map first_phase plan.now) }
{
    let mut states = Vec::new(alloc);
    for index in 0..plan.clients() {
        states.push(rested(plan, index + 1, 0))?;
    }
    Ok(states)
}

/// The states of clients of whose requests none is entered, and their history.
pub(crate) fn first_clients(
    alloc: Global,
    plan: &Plan,
) -> Result<(Vec<ClientState>, History), NoMemory>
    ensures states { IfOk result (λ r. (transaction : ℕ → Transaction)
        → phases_from 1 r.0.items transaction ≡ map first_phase plan.now) }
    ensures history { IfOk result (λ r. r.1 ≡ empty_record (length plan.now)) }
{
    let states = first_states(alloc, plan)?;
    let history = History::new(alloc, plan.clients())?;
    Ok((states, history))
}

// Whether no header with the number of this one is that of a lower segment.
fn is_least(header: &Header, headers: &[Header]) -> bool
    ensures { IsTrue result ↔ All (λ k. k.seq ≡ header.now.seq
        → header.now.segment ≤ k.segment) headers.now }
{
    headers.iter().all(|other| other.seq != header.seq || header.segment <= other.segment)
}

// Whether a header is that of a segment from the tail of a trail on.
fn is_from_tail(header: &Header, trail: &Trail) -> bool
    ensures { IsTrue result ↔ IsFromTail trail.now header.now }
{
    header.segment < trail.segments
        && header.seq >= trail.tail.seq
        && is_least(header, trail.headers.items())
}

/// The table of the segments of a trail, in which no block is live.
pub(crate) fn table_of(alloc: Global, trail: &Trail) -> Result<Table, NoMemory>
    requires { trail.now.active < trail.now.segments }
    ensures count { IfOk result (λ table. length table ≡ trail.now.segments) }
    ensures in_table { IfOk result (λ table. (image : List ℕ) → IsTrail image trail.now
        → InTable (opened image trail.now) table) }
    ensures no_other { IfOk result (λ table. (image : List ℕ) → IsTrail image trail.now
        → UsesNoOther image trail.now table) }
{
    let mut table = Table::new(alloc, trail.segments)?;
    let headers = trail.headers.items();
    for header in headers {
        if !is_from_tail(header, trail) {
            continue;
        }
        table.set(header.segment, SegState::Closed { seq: header.seq });
    }
    table.set(trail.active, SegState::Active { seq: trail.seq });
    Ok(table)
}

/// The trail of a device, which it syncs first, the objects that it opens to for so many clients,
/// and the table of its segments.
pub(crate) fn found<D: Device, T: Transactions + Drop>(
    alloc: Global,
    device: &mut D,
    clients: u32,
) -> Result<(Trail, T, Table), MountFault>
    ensures opens { IfOk result (λ r. (image : List ℕ) → D.contents device.old ≡ Some image
        → IsRead T.lays image r.0 (T.state r.1) × IsFound D.Device image r.0 r.2 device.new
        × UsesNoOther image r.0 r.2) }
    ensures can { IfOk result (λ r. CanResume r.0 (D.size device.new)
        × (length r.2 ≡ r.0.segments)) }
    ensures quiet { IfOk result (λ r. IsQuiet clients r.0.records (T.state r.1)) }
    ensures fault { IfErr result (IsUnopened ⊥ T.lays (D.contents device.old)
        (D.faults device.old) (D.faults device.new)) }
    ensures later { D.faults device.old ≤ D.faults device.new }
{
    let (trail, transactions) = read_image(alloc, device, clients)?;
    if let Some(spent) = spent(trail.commit, trail.mount, trail.seq) {
        return Err(MountFault::Spent(spent));
    }
    let table = table_of(alloc, &trail)?;
    Ok((trail, transactions, table))
}
