//! What was served.
use sea_plain::Reply;

/// A served request: its client, its number among that client's requests, from 1 on, and its reply.
#[derive(Debug, Drop)]
pub struct Entry {
    pub client: u32,
    pub number: u32,
    pub reply: Reply,
}
