//! The onode tree: where the objects of a store stand, by their names.
#![tactic(auto)]

mod changing;
mod reading;
mod value;

pub use changing::{erase, save};
pub use reading::{find, names};
use sea_base::Laddr;
pub use value::{OBJECT_ADDRESSES, new_onode, read_onode, spell_onode};

/// The root of the onode tree.
pub const ONODE_ROOT: Laddr = Laddr(1);

#[cfg(test)]
mod tests;
