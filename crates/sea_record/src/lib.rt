//! Records of the journal: what they hold, and the bytes that spell them.
#![tactic(auto)]

mod addresses;
mod entry;
mod header;
mod law;
mod list;
mod lists;
mod payload;
mod reading;
mod record;
mod rules;
mod writing;

pub use header::{DIGEST_AT, digest_in};
pub use law::spelling_laws;
pub use reading::decode;
pub use record::{Body, Change, Kind, Placed, Record};
pub use writing::{encode, encode_into, size};
