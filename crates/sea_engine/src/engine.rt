//! An engine: many clients over a journal.
ghost use Rattle.std.specs.Prelude.{◌≡◌};

use crate::fault::MountFault;
use crate::opening::{first_clients, found};
use crate::replay::last_of;
use crate::state::ClientState;
use sea_base::Commit;
use sea_device::Device;
use sea_history::{History, Plan};
use sea_journal::Journal;
use sea_transactions::Transactions;
use std::alloc::Global;

/// Many clients whose requests overlap, over a journal.
#[derive(Drop)]
pub struct Engine<D: Device, T: Transactions + Drop> {
    pub(crate) journal: Journal<D>,
    pub(crate) transactions: T,
    pub(crate) plan: Plan,
    // The state of each client, in their order.
    pub(crate) states: Vec<ClientState>,
    pub(crate) history: History,
    // The number of the last record that was laid over the objects.
    pub(crate) last: Commit,
}

impl<D: Device, T: Transactions + Drop> Engine<D, T> {
    ghost use Rattle.sea_journal.specs.Rolls.{rest_of};
    ghost use Rattle.sea_segment.specs.Table.{empty_of};
    ghost use Rattle.std.specs.Prelude.{ℕ, List, Some, IfErr, IfOk, IfSome};
    ghost use Rattle.sea_engine.specs.Engine.{AllServed, HasPastFrom, IsSound, turns_of};
    ghost use Rattle.sea_engine.specs.Mounting.{HasNoSpace, IsUnopened};
    ghost use Rattle.sea_engine.specs.Turns.{opened};

    /// Opens a device for the clients of a plan, of whose requests none is entered. It syncs the
    /// device and reads it, and goes on behind its trail with a mount record. Where it fails it
    /// hands the device back.
    pub fn open(alloc: Global, device: D, plan: Plan) -> Result<Engine<D, T>, (D, MountFault)>
        requires served { AllServed T.serves plan }
        ensures sound { IfOk result (IsSound T.Transactions) }
        ensures turns { IfOk result (λ engine. turns_of T.Transactions engine ≡ opened plan) }
        ensures past { (image : List ℕ) → D.contents device ≡ Some image
            → IfOk result (HasPastFrom T.Transactions image) }
        ensures fault { IfErr result (λ e. IsUnopened (IfSome (D.contents device) HasNoSpace) T.lays
            (D.contents device) (D.faults device) (D.faults e.0) e.1) }
    {
        let mut device = device;
        let (trail, transactions, table) = match found(alloc, &mut device, plan.clients()) {
            Ok(found) => found,
            Err(fault) => return Err((device, fault)),
        };
        let (states, history) = match first_clients(alloc, &plan) {
            Ok(clients) => clients,
            Err(_) => return Err((device, MountFault::NoMemory)),
        };
        let last = last_of(trail.records.items());
        match Journal::resume(alloc, device, &trail, table) {
            Ok(journal) => Ok(Engine {
                journal,
                transactions,
                plan,
                states,
                history,
                last,
            }),
            Err((device, fault)) => Err((device, fault.into())),
        }
    }

    /// What was served, and how much of it is acknowledged.
    pub fn history(&self) -> &History
        ensures { result.now ≡ self.now.history }
    {
        &self.history
    }

    /// How many blocks of the open segment are left.
    pub fn rest(&self) -> u32
        ensures { result ≡ rest_of self.now.journal.roll self.now.journal.queue }
    {
        self.journal.rest()
    }

    /// How many segments are empty.
    pub fn empty(&self) -> u32
        ensures { result ≡ empty_of self.now.journal.table }
    {
        self.journal.empty()
    }

    /// Hands the device back.
    pub fn close(self) -> D
        ensures { result ≡ self.journal.device }
    {
        let Engine {
            journal,
            transactions: _,
            plan: _,
            states: _,
            history: _,
            last: _,
        } = self;
        journal.close()
    }
}
