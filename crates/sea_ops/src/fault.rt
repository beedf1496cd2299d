//! Why an operation was not done.
ghost use Rattle.std.specs.Prelude.{◌≡◌};
ghost use Rattle.sea_ops.specs.declared.fault.OpFault.TheVariants.{Tree as OfTree};

use sea_object::Why;
use sea_tree::TreeFault;
use thiserror::Error;

/// Why an operation was not done.
#[derive(Clone, Copy, Debug, PartialEq, Eq, Error)]
pub enum OpFault {
    /// The model refuses it. The changes that it has made are to be dropped with the transaction.
    #[error("refused")]
    Refused(Why),
    /// A call on a tree or on data failed. The transaction is given up.
    #[error("{0}")]
    Tree(TreeFault),
}

impl From<TreeFault> for OpFault {
    ghost from_gives = { λ fault given. given ≡ OfTree fault };

    fn from(fault: TreeFault) -> Self {
        OpFault::Tree(fault)
    }
}
