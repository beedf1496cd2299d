//! Where physical nodes are read from.
ghost use Rattle.std.specs.Prelude.{◌≡◌, OnOk, IfOk, IfErr};
ghost use Rattle.sea_ptree.specs.Blocks.{Held, IsBlock, IsBlockFault, Keeps};

use crate::Checked;
use sea_base::{Paddr, SpaceFault, Sum};

/// Blocks under their places, each read by the sum that was kept of it.
pub trait Blocks {
    /// The block at each place, whether blocks are told, and how many faults of the device there
    /// were. The count of faults never falls, and stands still at 2^64 - 1.
    ghost held: { Self → Held };

    /// The block at a place, if it has the sum. Who keeps blocks keeps them checked, so that each
    /// is tested once and not at each visit.
    fn block(&mut self, at: Paddr, sum: Sum) -> Result<Checked, SpaceFault>
        ensures block { IfOk result (IsBlock (held self.old) at.0 sum.0) }
        ensures fault { IfErr result (IsBlockFault (held self.old) (held self.new) at.0 sum.0) }
        ensures kept { Keeps (held self.old) (held self.new) }
        ensures counted { OnOk result ((held self.new).faults ≡ (held self.old).faults) };
}
