//! The view that one transaction has of a store of blocks under logical addresses.
ghost use Rattle.std.specs.Prelude.{◌≡◌, ℕ, ◌+◌, ◌*◌, ◌^◌, ◌<◌, ◌≤◌, Bool, IsTrue, Some, None, OnOk, OnErr, IfOk, IfErr};
ghost use Rattle.std.specs.Option.{option_map};
ghost use Rattle.std.specs.Result.{result_err};
ghost use Rattle.sea_base.specs.Calls.{Continues, IsFrame};
ghost use Rattle.sea_base.specs.Space.{Seen, Found, IsKnown, IsSound, IsSame, ReadsAtMost, Places, Amends, Gives, ShowsCurrent};
ghost use Rattle.sea_base.specs.Splice.{IsSplice, spliced};

use crate::{Block, Delta, Laddr, NoMemory, Paddr, Sum};
use thiserror::Error;

/// Why a call of a space was not done.
#[derive(Clone, Copy, Debug, PartialEq, Eq, Error)]
pub enum SpaceFault {
    /// Memory ran out.
    #[error("no memory")]
    NoMemory,
    /// The device failed.
    #[error("device fault")]
    DeviceFault,
    /// A block that was read has another sum than the one that was kept of it.
    #[error("damaged")]
    Damaged {
        /// The place of the block.
        block: Paddr,
        /// The sum that was kept.
        kept: Sum,
        /// The sum that it has.
        found: Sum,
    },
}

impl From<NoMemory> for SpaceFault {
    ghost use Rattle.sea_base.specs.declared.space.SpaceFault.TheVariants.{NoMemory};

    ghost from_gives = { λ _ fault. fault ≡ NoMemory };

    fn from(_: NoMemory) -> Self {
        SpaceFault::NoMemory
    }
}

/// The view that one transaction has of a store: what it reads is noted, and what it changes is laid
/// over the store by its commit. After a fault the transaction is given up.
pub trait Space {
    /// What was read and changed.
    ghost seen: { Self → Seen };

    /// The version and the block at each address below the transaction, as the store has them now.
    ghost current: { Self → ℕ → Found };

    /// How many faults there were. The count never falls, and stands still at 2^64 - 1.
    ghost faults: { Self → ℕ };

    /// Whether the space tells its bytes: then what it reads is what stands there.
    ghost tells: { Self → Bool };

    /// Whether a transaction is in it.
    ghost ready: { Self → Bool };

    /// What the space is beside this transaction stays from one state to another.
    ghost keeps: { Self → Self → Type 0 };

    /// The block at an address, or nothing. The address is noted among the reads, unless the
    /// transaction read or changed it before. A call that fails notes that address at most.
    fn get(&mut self, at: Laddr) -> Result<Option<Block>, SpaceFault>
        requires { IsTrue (ready self.old) }
        ensures answer { IfOk result (λ found. found ≡ (seen self.new).view at.0) }
        ensures known { OnOk result (IsKnown (seen self.new) at.0) }
        ensures reads { ReadsAtMost at.0 (seen self.old) (seen self.new) }
        ensures call { Continues seen current faults tells ready keeps self.old self.new (result_err result) };

    /// Places a whole block. A call that fails changes nothing.
    fn put(&mut self, at: Laddr, block: Block) -> Result<(), SpaceFault>
        requires { IsTrue (ready self.old) }
        ensures placed { OnOk result (Places at.0 (Some block) (seen self.old) (seen self.new)) }
        ensures memory { IfErr result (λ fault. fault ≡ SpaceFault.NoMemory) }
        ensures same { OnErr result (IsSame (seen self.old) (seen self.new)) }
        ensures call { Continues seen current faults tells ready keeps self.old self.new (result_err result) };

    /// Places the block that a splice makes of the one that stands there. A call that fails changes
    /// nothing.
    fn amend(&mut self, at: Laddr, delta: Delta, block: Block) -> Result<(), SpaceFault>
        requires ready { IsTrue (ready self.old) }
        requires known { IsKnown (seen self.old) at.0 }
        requires fits { IsSplice delta.cut delta.gone delta.put }
        requires splice { option_map (spliced delta.cut delta.gone delta.put) ((seen self.old).view at.0) ≡ Some block }
        ensures amended { OnOk result (Amends at.0 delta block (seen self.old) (seen self.new)) }
        ensures memory { IfErr result (λ fault. fault ≡ SpaceFault.NoMemory) }
        ensures same { OnErr result (IsSame (seen self.old) (seen self.new)) }
        ensures call { Continues seen current faults tells ready keeps self.old self.new (result_err result) };

    /// Leaves nothing at an address. A call that fails changes nothing.
    fn drop_at(&mut self, at: Laddr) -> Result<(), SpaceFault>
        requires { IsTrue (ready self.old) }
        ensures gone { OnOk result (Places at.0 None (seen self.old) (seen self.new)) }
        ensures memory { IfErr result (λ fault. fault ≡ SpaceFault.NoMemory) }
        ensures same { OnErr result (IsSame (seen self.old) (seen self.new)) }
        ensures call { Continues seen current faults tells ready keeps self.old self.new (result_err result) };

    /// The next address, which is the first of `count` that no call has given before. A call that
    /// fails gives none.
    fn alloc(&mut self, count: u64) -> Result<Laddr, SpaceFault>
        requires ready { IsTrue (ready self.old) }
        requires count { (1 ≤ count) × (count ≤ 4098) }
        requires room { (seen self.old).next < 2 ^ 62 + 2 ^ 47 }
        ensures first { IfOk result (λ first. first.0 ≡ (seen self.old).next) }
        ensures given { OnOk result (Gives count (seen self.old) (seen self.new)) }
        ensures memory { IfErr result (λ fault. fault ≡ SpaceFault.NoMemory) }
        ensures same { OnErr result (IsSame (seen self.old) (seen self.new)) }
        ensures call { Continues seen current faults tells ready keeps self.old self.new (result_err result) };

    /// What holds of each transaction.
    ghost sound: { (space : Self) → IsSound (seen space) };

    /// States that keep one another share what is current.
    ghost frame: { IsFrame current keeps };

    /// Where a space tells its bytes, an address that the transaction doesn't know shows what is current.
    ghost shows: { (space : Self) → IsTrue (tells space) → ShowsCurrent (current space) (seen space) };
}
