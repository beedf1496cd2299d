//! Operations on objects over the view of one transaction.
#![tactic(auto)]

mod asking;
mod attributes;
mod clearing;
mod executing;
mod fault;
mod key_range;
mod law;
mod making;
mod omap;
mod removing;
mod writing;

pub use asking::{get_attr, get_attrs, list, omap_get, omap_list, read, stat};
pub use attributes::{remove_attr, set_attr};
pub use clearing::{omap_clear, remove_attrs};
pub use executing::exec;
pub use fault::OpFault;
pub use key_range::omap_remove_key_range;
pub use law::transaction_laws;
pub use making::touch;
pub use omap::{omap_remove_keys, omap_set_keys};
pub use removing::remove;
pub use writing::{truncate, write, zero};
