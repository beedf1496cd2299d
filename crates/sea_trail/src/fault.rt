//! Why a trail is not told.
ghost use Rattle.std.specs.Prelude.{◌≡◌};
ghost use Rattle.sea_trail.specs.declared.fault.ReadFault.TheVariants as reads;
ghost use Rattle.sea_trail.specs.declared.fault.ScanFault.TheVariants as scans;
ghost use Rattle.sea_trail.specs.Faults.{scan_fault};

use sea_base::{NoMemory, Paddr};
use sea_device::Failed;
use std::alloc::{AllocError, AllocFailed};
use thiserror::Error;

/// Why an image has no trail: the first that holds, in this order.
#[derive(Clone, Copy, Debug, PartialEq, Eq, Error)]
pub enum ImageWhy {
    /// Its first block spells no superblock.
    #[error("NoSuper")]
    NoSuper,
    /// Its superblock is of another format.
    #[error("OldFormat {found}")]
    OldFormat { found: u32 },
    /// It has fewer blocks than its segments need.
    #[error("Short {have} {need}")]
    Short { have: u32, need: u32 },
    /// No segment has a header.
    #[error("NoSegment")]
    NoSegment,
    /// No segment has the header with this sequence number.
    #[error("MissingSegment {seq}")]
    MissingSegment { seq: u64 },
    /// The records end at this block, and what should go on from there doesn't; or the tail is at
    /// this block, where no record stands.
    #[error("BadRecord {}", .block.0)]
    BadRecord { block: Paddr },
}

/// Why blocks could not be read.
#[derive(Clone, Copy, Debug, PartialEq, Eq, Error)]
pub enum ReadFault {
    #[error("no memory")]
    NoMemory,
    /// A call of the device failed.
    #[error("device fault")]
    DeviceFault,
}

/// Why a scan told no trail.
#[derive(Clone, Copy, Debug, PartialEq, Eq, Error)]
pub enum ScanFault {
    #[error("no memory")]
    NoMemory,
    /// A call of the device failed.
    #[error("device fault")]
    DeviceFault,
    /// The image has none.
    #[error("{0}")]
    Refused(ImageWhy),
}

impl From<NoMemory> for ReadFault {
    ghost from_gives = { λ _ given. given ≡ reads.NoMemory };

    fn from(_: NoMemory) -> Self {
        ReadFault::NoMemory
    }
}

impl From<AllocError> for ReadFault {
    ghost from_gives = { λ _ given. given ≡ reads.NoMemory };

    fn from(_: AllocError) -> Self {
        ReadFault::NoMemory
    }
}

impl<T: Drop> From<AllocFailed<T>> for ReadFault {
    ghost from_gives = { λ _ given. given ≡ reads.NoMemory };

    fn from(_: AllocFailed<T>) -> Self {
        ReadFault::NoMemory
    }
}

impl From<Failed> for ReadFault {
    ghost from_gives = { λ _ given. given ≡ reads.DeviceFault };

    fn from(_: Failed) -> Self {
        ReadFault::DeviceFault
    }
}

impl From<ReadFault> for ScanFault {
    ghost from_gives = { λ fault given. given ≡ scan_fault fault };

    fn from(fault: ReadFault) -> Self {
        match fault {
            ReadFault::NoMemory => ScanFault::NoMemory,
            ReadFault::DeviceFault => ScanFault::DeviceFault,
        }
    }
}

impl From<NoMemory> for ScanFault {
    ghost from_gives = { λ _ given. given ≡ scans.NoMemory };

    fn from(_: NoMemory) -> Self {
        ScanFault::NoMemory
    }
}

impl<T: Drop> From<AllocFailed<T>> for ScanFault {
    ghost from_gives = { λ _ given. given ≡ scans.NoMemory };

    fn from(_: AllocFailed<T>) -> Self {
        ScanFault::NoMemory
    }
}

impl From<ImageWhy> for ScanFault {
    ghost from_gives = { λ why given. given ≡ scans.Refused why };

    fn from(why: ImageWhy) -> Self {
        ScanFault::Refused(why)
    }
}
