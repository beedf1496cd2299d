//! Reading what a device opens to.
ghost use Rattle.std.specs.Prelude.{◌≡◌, List, ℕ, Err, IfOk, IfErr, IfSome};
ghost use Rattle.sea_engine.specs.Reading.{IsQuiet, IsRead, IsStable, OnlySynced, Shuts};
ghost use Rattle.sea_engine.specs.declared.reading.OpenFault.TheVariants.{DeviceFault};
ghost use Rattle.sea_trail.specs.Faults.{BlamesDevice};
ghost use Rattle.sea_trail.specs.Ranges.{IsInRange};
ghost use Rattle.sea_trail.specs.Trail.{IsTrail};

use crate::replay::{ReplayFault, are_rising, replayed};
use sea_device::{Device, Failed};
use sea_trail::{ImageWhy, ScanFault, Trail, scan};
use sea_transactions::Transactions;
use std::alloc::Global;

/// Why a device opens to no objects.
#[derive(Clone, Copy, Debug, PartialEq, Eq)]
pub enum OpenFault {
    NoMemory,
    /// A call of the device failed.
    DeviceFault,
    /// Its image opens to none.
    Refused(ImageWhy),
}

impl From<Failed> for OpenFault {
    ghost use Rattle.sea_engine.specs.declared.reading.OpenFault.TheVariants.{DeviceFault};

    ghost from_gives = { λ _ fault. fault ≡ DeviceFault };

    fn from(_: Failed) -> Self {
        OpenFault::DeviceFault
    }
}

impl From<ScanFault> for OpenFault {
    ghost use Rattle.sea_engine.specs.Reading.{open_fault};

    ghost from_gives = { λ fault made. made ≡ open_fault fault };

    fn from(fault: ScanFault) -> Self {
        match fault {
            ScanFault::NoMemory => OpenFault::NoMemory,
            ScanFault::DeviceFault => OpenFault::DeviceFault,
            ScanFault::Refused(why) => OpenFault::Refused(why),
        }
    }
}

impl From<ReplayFault> for OpenFault {
    ghost use Rattle.sea_engine.specs.Reading.{strange_fault};

    ghost from_gives = { λ fault made. made ≡ strange_fault fault };

    fn from(fault: ReplayFault) -> Self {
        match fault {
            ReplayFault::NoMemory => OpenFault::NoMemory,
            ReplayFault::Strange { block } => OpenFault::Refused(ImageWhy::BadRecord { block }),
        }
    }
}

/// Syncs a device and reads its trail, and the objects that it opens to, for so many clients.
pub fn read_image<D: Device, T: Transactions + Drop>(
    alloc: Global,
    device: &mut D,
    clients: u32,
) -> Result<(Trail, T), OpenFault>
    ensures opens { IfOk result (λ r. IfSome (D.contents device.old)
        (λ image. IsRead T.lays image r.0 (T.state r.1))) }
    ensures refused { IfErr result (λ fault. IfSome (D.contents device.old)
        (λ image. Shuts T.lays image fault)) }
    ensures range { IfOk result (λ r. IsInRange r.0 (D.size device.old)) }
    ensures quiet { IfOk result (λ r. IsQuiet clients r.0.records (T.state r.1)) }
    ensures synced { OnlySynced D.Device device.old device.new
        × IfOk result (λ r. IsStable D.Device device.new) }
    ensures cause { BlamesDevice DeviceFault (D.faults device.old) (D.faults device.new) result }
{
    device.sync()?;
    let trail = scan(alloc, device)?;
    let transactions = objects_of(alloc, clients, &trail)?;
    Ok((trail, transactions))
}

// The objects that the records of a trail make.
fn objects_of<T: Transactions + Drop>(
    alloc: Global,
    clients: u32,
    trail: &Trail,
) -> Result<T, OpenFault>
    ensures opens { IfOk result (λ t. (image : List ℕ) → IsTrail image trail.now
        → IsRead T.lays image trail.now (T.state t)) }
    ensures refused { IfErr result (λ fault. (image : List ℕ) → IsTrail image trail.now
        → Shuts T.lays image fault) }
    ensures quiet { IfOk result (λ t. IsQuiet clients trail.now.records (T.state t)) }
    ensures no_device { result ≡ Err DeviceFault → ⊥ }
{
    let records = trail.records.items();
    if !are_rising(records) {
        let block = trail.tail.place;
        return Err(OpenFault::Refused(ImageWhy::BadRecord { block }));
    }
    let transactions = replayed(alloc, clients, records)?;
    Ok(transactions)
}
