//! Trees of logical nodes over the view of one transaction.
#![tactic(auto)]

mod changing;
mod cursor;
mod cut;
mod edit;
mod fault;
mod leaf;
mod lookup;
mod neighbours;
mod path;
mod place;
mod plan;
mod reading;
mod rebalancing;
mod rooting;
mod splice;
mod walking;

pub use changing::{del, put};
pub use fault::TreeFault;
pub use plan::CHANGED_BLOCKS;
pub use reading::{get, range};
pub use walking::{Checked, check, drop_all};
