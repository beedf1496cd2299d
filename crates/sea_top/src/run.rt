//! Serving a plan over a device.
ghost use Rattle.std.specs.Prelude.{◌≡◌, ◌⊎◌, ◌≤◌, ◌+◌, ◌*◌, ◌++◌, ℕ, List, length, vec_len, Some, IfOk, OnOk, OnErr, IsOk, IsSome, IfNone, IfSome, MatchOption};
ghost use Rattle.sea_device.specs.Device.{FaultsRose};
ghost use Rattle.sea_top.specs.Crash.{ChangesBehind, IsUnwritten};
ghost use Rattle.sea_top.specs.Headline.{Serving};
ghost use Rattle.sea_top.specs.Input.{Fails};
ghost use Rattle.sea_top.specs.Opening.{refusal_of};
ghost use Rattle.sea_top.specs.Queue.{Waits, Keeps, behind};
ghost use Rattle.sea_top.specs.Trail.{IsTrail};
ghost use Rattle.sea_top.specs.declared.record.PlainRecord.{PlainRecord};
ghost use Rattle.sea_top.specs.Serving.{AsksFirst};

use crate::queue::Queue;
use crate::serving::serve_all;
use crate::{Refusal, Trail, TrailFault, read_trail};
use sea_base::{Commit, NoMemory, Paddr, Sequence};
use sea_device::Device;
use sea_plain_script::{Asked, Entry};
use std::alloc::Global;

/// What was served of a plan.
#[derive(Debug, Drop)]
pub struct Run {
    /// The entries, in order.
    pub history: Sequence<Entry>,
    /// How many of them are acknowledged.
    pub acknowledged: usize,
    /// What ended the run before the plan was served and acknowledged.
    pub ending: Option<Refusal>,
}

/// Opens a device, serves a plan and acknowledges it by one sync. It is refused where the opening is.
pub fn serve<D: Device>(alloc: Global, device: &mut D, plan: &[Asked]) -> Result<Run, Refusal>
    requires first { AsksFirst plan.now }
    requires few { length plan.now ≤ 10000 }
    ensures serves { (image : List ℕ) → D.contents device.old ≡ Some image
        → IfOk result (λ run. Serving plan.now image (D.size device.old) run.history run.acknowledged run.ending
        (D.contents device.new) (D.may_leave device.new) (D.may_leave device.old)
        (D.clock device.old) (D.clock device.new) (D.left_since device.new)) }
    // Where the opening is refused nothing is written.
    ensures refused { (image : List ℕ) → D.contents device.old ≡ Some image
        → OnErr result (IsUnwritten image (D.contents device.new) (D.may_leave device.new) (D.may_leave device.old)
        (D.left_since device.new (D.clock device.old))) }
    ensures within { IfOk result (λ run. run.acknowledged ≤ length run.history) }
    ensures opening { Fails (D.faults device.old) (D.faults device.new) Refusal.DeviceFault result }
    ensures ending { IfOk result (λ run. MatchOption run.ending (run.acknowledged ≡ length run.history)
        (λ refusal. (refusal ≡ Refusal.NoMemory) ⊎ ((refusal ≡ Refusal.DeviceFault) × FaultsRose (D.faults device.old) (D.faults device.new)))) }
{
    device.sync().map_err(|_| Refusal::DeviceFault)?;
    let trail = read_trail(alloc, device)?;
    let Trail {
        end,
        commit,
        previous,
        mut objects,
    } = trail;
    let rest = device.blocks() - end;
    let mut queue = Queue::new(alloc, Paddr(end), Commit(commit), previous, rest);
    let mut history = Sequence::new(alloc);
    let served = serve_all(alloc, &mut objects, &mut queue, &mut history, plan);
    let ending = write_out(device, queue, served);
    let acknowledged = count_acknowledged(ending, history.items().len());
    Ok(Run {
        history,
        acknowledged,
        ending,
    })
}

impl From<TrailFault> for Refusal {
    ghost from_gives = { λ fault refusal. refusal ≡ refusal_of fault };

    fn from(fault: TrailFault) -> Self {
        match fault {
            TrailFault::NoMemory => Refusal::NoMemory,
            TrailFault::DeviceFault => Refusal::DeviceFault,
        }
    }
}

// Writes and syncs what was served; without want of memory it acknowledges it all.
fn write_out<D: Device>(
    device: &mut D,
    queue: Queue,
    served: Result<(), NoMemory>,
) -> Option<Refusal>
    requires { OnOk served (4096 * queue.place.0 + vec_len queue.bytes + 4096 * queue.rest ≤ 4096 * D.size device.old) }
    ensures kept { (image : List ℕ) (records news : List PlainRecord) → D.contents device.old ≡ Some image
        → IsTrail image records → ((c : List ℕ) → D.may_leave device.old c → c ≡ image)
        → Waits (behind records (D.size device.old)) queue news
        → IfNone result (Keeps (records ++ news) (D.contents device.new) (D.may_leave device.new)) }
    ensures behind { ChangesBehind (4096 * queue.place.0) D.Device device.old device.new }
    ensures served { IfNone result (IsOk served) }
    ensures later { D.faults device.old ≤ D.faults device.new }
    ensures cause { IfSome result (λ refusal. (refusal ≡ Refusal.NoMemory)
        ⊎ ((refusal ≡ Refusal.DeviceFault) × FaultsRose (D.faults device.old) (D.faults device.new))) }
{
    match served {
        Ok(()) => queue.write(device).err(),
        Err(_) => Some(Refusal::NoMemory),
    }
}

// How many of so many entries are acknowledged.
fn count_acknowledged(ending: Option<Refusal>, entries: usize) -> usize
    ensures all { IfNone ending (result ≡ entries) }
    ensures none { IsSome ending → result ≡ 0 }
{
    if ending.is_none() { entries } else { 0 }
}
