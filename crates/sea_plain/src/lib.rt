//! The objects of the first path: `write` and `read`, requests of them and their replies.
#![tactic(auto)]

mod object;
mod objects;
mod op;
mod patch;
pub mod plain;
mod reply;
mod request;

pub use object::Object;
pub use objects::Objects;
pub use op::{OBJECT_BYTES, Op, Ops, READ_BYTES};
pub use reply::{Item, Items, Reply};
pub use request::{Request, RequestFault};

#[cfg(test)]
mod tests;
