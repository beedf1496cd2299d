//! What the store keeps of an object beside its bytes and its pairs.

use sea_base::Laddr;

/// Where an object's blocks stand, and how much it holds. Its attributes are a tree with the root
/// `base`, its omap one with the root `base + 1`, and its data block i stands at `base + 2 + i`.
#[derive(Clone, Copy, Debug, PartialEq, Eq)]
pub struct Onode {
    /// The first of its 4,098 addresses.
    pub base: Laddr,
    /// How many bytes it has, to 16,777,216.
    pub size: u32,
    /// How many attributes it has, to 64.
    pub attrs: u32,
    /// How many keys its omap has, to 10,000.
    pub keys: u32,
}
