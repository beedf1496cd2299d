//! Objects as the pieces of records make them, with their versions, and the transactions on them.
#![tactic(auto)]

mod addresses;
mod committed;
mod content;
mod late;
mod piece;
mod spelling;
mod store;
mod transaction;
mod workspace;

pub use addresses::Addresses;
pub use committed::Committed;
pub use piece::{Piece, Pieces};
pub use spelling::{read_pieces, spell_pieces};
pub use store::PieceStore;
pub use transaction::Transaction;
pub use workspace::Workspace;

#[cfg(test)]
mod tests;
