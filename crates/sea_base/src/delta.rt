//! Splices of blocks.

use crate::Data;

/// A splice: it makes of a block's bytes the first `cut`, then `put`, then those from `cut + gone` on,
/// cut to 4,096 bytes or filled with zeros to as many.
#[derive(Debug, PartialEq, Eq, Drop)]
pub struct Delta {
    /// How many bytes stay at the front.
    pub cut: u16,
    /// How many bytes behind them go.
    pub gone: u16,
    /// The bytes that come in their place.
    pub put: Data,
}
