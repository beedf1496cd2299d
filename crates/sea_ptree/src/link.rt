//! What leads to a node.
ghost use Rattle.std.specs.Prelude.{◌≡◌};
ghost use Rattle.sea_ptree.specs.Tree.{link_of, root_link};

use sea_base::{PRoot, Paddr, Slot, Sum};

/// What leads to a node: its place, and the sum that was kept of it.
#[derive(Clone, Copy, Debug, PartialEq, Eq)]
pub(crate) struct Link {
    /// The place of its block.
    pub at: Paddr,
    /// The sum of its block.
    pub sum: Sum,
}

impl Link {
    /// The child that a slot above the leaves leads to.
    pub fn of(slot: Slot) -> Link
        ensures { result ≡ link_of slot }
    {
        Link {
            at: slot.at,
            sum: slot.sum,
        }
    }

    /// The root's node.
    pub fn root(root: PRoot) -> Link
        ensures { result ≡ root_link root }
    {
        Link {
            at: root.at,
            sum: root.sum,
        }
    }
}
