//! Faults, counted.
ghost use Rattle.std.specs.Prelude.{◌≡◌, IsErr};
ghost use Rattle.sea_base.specs.Failures.{one_more};
ghost use Rattle.sea_device.specs.Device.{HasCause};

use crate::Failed;

/// Counts a fault, and answers it.
pub fn fault<T>(faults: &mut u64) -> Result<T, Failed>
    ensures failed { IsErr result }
    ensures counted { faults.new ≡ one_more faults.old }
    ensures cause { HasCause faults.old faults.new result }
{
    *faults = faults.saturating_add(1);
    Err(Failed)
}
