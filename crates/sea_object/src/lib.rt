//! Objects under their names, the operations on them, requests of operations and their replies.
#![tactic(auto)]

mod content;
mod named;
mod object;
mod objects;
mod onode;
mod op;
mod patch;
mod reply;
mod request;
mod slot;
mod slots;
mod undo;
mod values;

pub use object::Object;
pub use objects::Objects;
pub use onode::Onode;
pub use op::{Kind, OBJECT_BYTES, Op, Ops, READ_BYTES, VALUE_BYTES};
pub use reply::{Item, Items, Reply, Why};
pub use request::{Request, RequestFault};
pub use values::Values;
