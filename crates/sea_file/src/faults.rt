//! Calls of the system that failed, counted.
ghost use Rattle.std.specs.Prelude.{◌≡◌, IfOk, OnErr, IsErr, Ok};
ghost use Rattle.sea_base.specs.Failures.{CountsFault};
ghost use Rattle.sea_device.specs.Device.{HasCause};

use sea_device::Failed;
use std::io;

/// What a call of the system answered, with its failure counted.
pub fn counted<T>(faults: &mut u64, done: io::Result<T>) -> Result<T, Failed>
    ensures ok { IfOk done (λ value. result ≡ Ok value) }
    ensures failed { OnErr done (IsErr result) }
    ensures faults { CountsFault faults.old faults.new result }
    ensures cause { HasCause faults.old faults.new result }
{
    match done {
        Ok(value) => Ok(value),
        Err(_) => {
            *faults = faults.saturating_add(1);
            Err(Failed)
        }
    }
}
