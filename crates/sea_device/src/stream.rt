//! Where input comes from, and where output goes.
ghost use Rattle.std.specs.Prelude.{◌≡◌, ℕ, ◌≤◌, ◌<◌, ◌++◌, List, Option, length, take, IfOk, OnErr};
ghost use Rattle.std.specs.Option.{option_map};
ghost use Rattle.sea_device.specs.Device.{HasCause};
ghost use Rattle.sea_base.specs.Failures.{CountsFault};
ghost use Rattle.sea_device.specs.Stream.{Hands};

use crate::Failed;

/// A source of bytes, which has an end.
pub trait Source {
    /// The bytes that are left, where the source tells them.
    ghost remaining: { Self → Option (List ℕ) };

    /// How many calls have failed. It stands still at 2^64 - 1.
    ghost faults: { Self → ℕ };

    /// Takes the next bytes into the front of `into`, and answers how many: 0 at the end alone.
    fn take(&mut self, into: &mut [u8]) -> Result<usize, Failed>
        requires { 0 < length into.old }
        ensures count { IfOk result (λ n. n ≤ length into.old) }
        ensures bytes { IfOk result (λ n. Hands n into.new (remaining self.old)
            (remaining self.new)) }
        ensures failed { OnErr result (remaining self.new ≡ remaining self.old) }
        ensures faults { CountsFault (faults self.old) (faults self.new) result }
        ensures cause { HasCause (faults self.old) (faults self.new) result };
}

/// A sink of bytes.
pub trait Sink {
    /// The bytes taken so far, where the sink tells them.
    ghost taken: { Self → Option (List ℕ) };

    /// How many calls have failed. It stands still at 2^64 - 1.
    ghost faults: { Self → ℕ };

    /// Takes bytes from the front of `bytes`, and answers how many, at least 1.
    fn put(&mut self, bytes: &[u8]) -> Result<usize, Failed>
        requires { 0 < length bytes.now }
        ensures count { IfOk result (λ n. (1 ≤ n) × (n ≤ length bytes.now)) }
        ensures bytes { IfOk result (λ n. taken self.new
            ≡ option_map (λ t. t ++ take n bytes.now) (taken self.old)) }
        ensures failed { OnErr result (taken self.new ≡ taken self.old) }
        ensures faults { CountsFault (faults self.old) (faults self.new) result }
        ensures cause { HasCause (faults self.old) (faults self.new) result };
}
