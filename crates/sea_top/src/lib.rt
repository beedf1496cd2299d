//! The commands of the store, from words and input to output and device.
#![tactic(auto)]

mod batch;
mod command;
mod input;
mod planning;
mod print;
mod queue;
mod record;
mod refusal;
mod reply;
mod request_pieces;
mod run;
mod serving;
mod trail;

pub use command::tool;
pub use record::{
    Piece, Pieces, PlainRecord, RECORD_BLOCKS, push_record, read_record, record_blocks,
};
pub use refusal::{Refusal, Status};
pub use run::{Run, serve};
pub use trail::{Trail, TrailFault, read_trail};

#[cfg(test)]
mod tests;
