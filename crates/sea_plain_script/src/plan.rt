//! What a script asks for.
use sea_base::Sequence;
use sea_plain::Request;

/// A request, and the client that makes it. Clients count from 1.
#[derive(Debug, Drop)]
pub struct Asked {
    pub client: u32,
    pub request: Request,
}

/// The requests of a script, in its order.
pub type Plan = Sequence<Asked>;
