//! The base types of the store: lists, byte strings, names, blocks, numbers in fields, digests,
//! and the view that a transaction has of a store.
#![tactic(auto)]

mod append;
mod block;
mod data;
mod delta;
mod digest;
mod failures;
mod field;
mod map_space;
mod memory;
mod name;
mod place;
mod root_fields;
mod sequence;
mod space;

pub use append::{push_u16, push_u32, push_u64};
pub use block::{BLOCK_BYTES, Block};
pub use data::Data;
pub use delta::Delta;
pub use digest::{Digest, Sum, digest_at, digest_of, sealed_digest, sum_of};
pub use failures::Failures;
pub use field::{is_zero, put_bytes, put_u16, put_u32, put_u64, u16_at, u32_at, u64_at};
pub use map_space::MapSpace;
pub use memory::{Duplicate, NoMemory};
pub use name::{Key, Name, NameFault, is_name};
pub use place::{Commit, Laddr, PRoot, Paddr, Root, Slot, Tail};
pub use root_fields::{ROOT_BYTES, is_root, is_tail, push_root_fields, root_fields_at};
pub use sequence::{Addresses, Names, Nths, Pairs, Sequence};
pub use space::{Space, SpaceFault};
