//! Where a client stands.

/// Where a client stands among its requests. A transaction began where the history had so many
/// entries.
#[derive(Clone, Copy, Debug, PartialEq, Eq)]
pub enum ClientState {
    /// All its requests are entered.
    Idle,
    /// Its next request waits.
    Waiting,
    /// So many operations of it are done.
    Running { done: u32, began: u32 },
    /// Its reply stands ready.
    Ready { began: u32 },
}
