//! A device of blocks, what it holds now, and what a crash may leave of it.
ghost use Rattle.std.specs.Prelude.{◌≡◌, ℕ, ◌+◌, ◌*◌, ◌≤◌, ◌<◌, List, Bool, IsTrue, Option, Some, length, slice_range, OnOk, OnErr, IfSome};
ghost use Rattle.std.specs.Option.{option_map};
ghost use Rattle.sea_device.specs.Device.{IsImage, IsWholeBlocks, overwritten, Torn, ChangesWithin, IsSame, Follows, Reaches, Elapses, HasCause};
ghost use Rattle.sea_base.specs.Failures.{CountsFault};

use sea_base::Paddr;
use thiserror::Error;

/// A call of a device, a source or a sink failed.
#[derive(Clone, Copy, Debug, PartialEq, Eq, Error)]
#[error("failed")]
pub struct Failed;

/// A device of blocks of 4,096 bytes under the disk rule: a crash leaves the image of the last good
/// sync, with any bytes in any part of the ranges written since.
pub trait Device {
    /// How many blocks there are.
    ghost size: { Self → ℕ };

    /// The bytes now, where the device tells them.
    ghost contents: { Self → Option (List ℕ) };

    /// Whether the device tells what a crash may leave.
    ghost tells_images: { Self → Bool };

    /// What a crash at this moment may leave. It is nothing where the device doesn't tell.
    ghost may_leave: { Self → List ℕ → Type 0 };

    /// The moment, as a number that never falls.
    ghost clock: { Self → ℕ };

    /// What a crash at some moment from that one on may have left, within a call or between two.
    ghost left_since: { Self → ℕ → List ℕ → Type 0 };

    /// How many calls have failed. It stands still at 2^64 - 1.
    ghost faults: { Self → ℕ };

    /// How many blocks there are, which never changes.
    fn blocks(&self) -> u32
        ensures { result ≡ size self.now };

    /// Fills `into` with the bytes from block `at` on.
    fn read(&mut self, at: Paddr, into: &mut [u8]) -> Result<(), Failed>
        requires whole { IsWholeBlocks (length into.old) }
        requires within { 4096 * at.0 + length into.old ≤ 4096 * size self.old }
        ensures bytes { OnOk result (IfSome (contents self.old)
            (λ b. into.new ≡ slice_range b (4096 * at.0) (4096 * at.0 + length into.old))) }
        ensures size { size self.new ≡ size self.old }
        ensures contents { contents self.new ≡ contents self.old }
        ensures told { tells_images self.new ≡ tells_images self.old }
        ensures images { IsSame (may_leave self.old) (may_leave self.new) }
        ensures time { Elapses (clock self.old) (clock self.new) (left_since self.old)
            (left_since self.new) (may_leave self.new) }
        ensures faults { CountsFault (faults self.old) (faults self.new) result }
        ensures cause { HasCause (faults self.old) (faults self.new) result };

    /// Replaces the bytes from block `at` on. After a failed write the bytes of its range may be
    /// anything. Until the next good sync a crash may leave anything there.
    fn write(&mut self, at: Paddr, bytes: &[u8]) -> Result<(), Failed>
        requires whole { IsWholeBlocks (length bytes.now) }
        requires within { 4096 * at.0 + length bytes.now ≤ 4096 * size self.old }
        ensures written { OnOk result (contents self.new
            ≡ option_map (overwritten (4096 * at.0) bytes.now) (contents self.old)) }
        ensures within { ChangesWithin (4096 * at.0) (length bytes.now) (contents self.old)
            (contents self.new) }
        ensures size { size self.new ≡ size self.old }
        ensures told { tells_images self.new ≡ tells_images self.old }

        // What a crash may leave is what it might have left before, with any bytes in the range.
        ensures images { Follows (Torn (4096 * at.0) (length bytes.now)) (may_leave self.old)
            (may_leave self.new) }
        ensures torn { OnOk result (Reaches (Torn (4096 * at.0) (length bytes.now))
            (may_leave self.old) (may_leave self.new)) }
        ensures unwritten { (c : List ℕ) → may_leave self.old c → may_leave self.new c }

        ensures time { Elapses (clock self.old) (clock self.new) (left_since self.old)
            (left_since self.new) (may_leave self.new) }
        ensures faults { CountsFault (faults self.old) (faults self.new) result }
        ensures cause { HasCause (faults self.old) (faults self.new) result };

    /// Makes the bytes now stable: a crash leaves them and nothing else. After a failed sync nothing
    /// more is stable than before.
    fn sync(&mut self) -> Result<(), Failed>
        ensures stable { OnOk result ((c : List ℕ) → may_leave self.new c
            → IfSome (contents self.new) (λ b. c ≡ b)) }
        ensures size { size self.new ≡ size self.old }
        ensures contents { contents self.new ≡ contents self.old }
        ensures told { tells_images self.new ≡ tells_images self.old }
        ensures images { (c : List ℕ) → may_leave self.new c → may_leave self.old c }
        ensures unstable { OnErr result (IsSame (may_leave self.old) (may_leave self.new)) }
        ensures time { Elapses (clock self.old) (clock self.new) (left_since self.old)
            (left_since self.new) (may_leave self.new) }
        ensures faults { CountsFault (faults self.old) (faults self.new) result }
        ensures cause { HasCause (faults self.old) (faults self.new) result };

    /// The bytes now are those of all blocks.
    ghost whole: { (device : Self) (b : List ℕ) → contents device ≡ Some b
        → IsImage (size device) b };

    /// What a crash leaves has as many bytes.
    ghost images_whole: { (device : Self) (c : List ℕ) → may_leave device c
        → IsImage (size device) c };

    /// The bytes now are among what a crash may leave.
    ghost now_among: { (device : Self) (b : List ℕ) → IsTrue (tells_images device)
        → contents device ≡ Some b → may_leave device b };

    /// This moment is one of those since an earlier one.
    ghost counts_now: { (device : Self) (t : ℕ) (c : List ℕ) → t ≤ clock device
        → may_leave device c → left_since device t c };

    /// Since this moment there is no other.
    ghost only_now: { (device : Self) (c : List ℕ) → left_since device (clock device) c
        → may_leave device c };
}
