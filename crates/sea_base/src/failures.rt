//! Which calls fail.
ghost use Rattle.std.specs.Prelude.{◌≡◌, ◌↔◌, IsTrue};
ghost use Rattle.sea_base.specs.Failures.{IsDue, counted, IsFresh};

use crate::Nths;

/// The calls of one kind: how many there were, and which of them fail, counted from 1. The count
/// stands still at 2^64 - 1.
#[derive(Debug, Drop)]
pub struct Failures {
    listed: Nths,
    calls: u64,
}

impl Failures {
    /// No call so far, and the listed ones will fail.
    pub fn new(listed: Nths) -> Failures
        ensures { IsFresh listed result }
    {
        Failures { listed, calls: 0 }
    }

    /// Counts a call, and tells whether it fails.
    pub fn strikes(&mut self) -> bool
        ensures exact { IsTrue result ↔ IsDue self.old }
        ensures counted { self.new ≡ counted self.old }
    {
        self.calls = self.calls.saturating_add(1);
        self.listed.items().contains(&self.calls)
    }
}
