//! How a segment is used.
ghost use Rattle.std.specs.Prelude.{◌≡◌, ◌↔◌, IsTrue};
ghost use Rattle.sea_segment.specs.State.{is_empty, IsClosedBefore};

/// How a segment is used.
#[derive(Clone, Copy, Debug, PartialEq, Eq)]
pub enum SegState {
    /// It holds nothing that is needed.
    Empty,
    /// It is the open one, to which records are added.
    Active { seq: u64 },
    /// It may hold what is needed, and takes no more records.
    Closed { seq: u64 },
}

/// What the table holds of a segment.
#[derive(Clone, Copy, Debug, PartialEq, Eq)]
pub struct Segment {
    pub state: SegState,
    /// How many of its blocks are live.
    pub live: u32,
}

impl SegState {
    /// Whether it holds nothing that is needed.
    pub fn is_empty(self) -> bool
        ensures { result ≡ is_empty self }
    {
        matches!(self, SegState::Empty)
    }

    /// Whether it is closed, with a sequence number below this one.
    pub fn is_closed_before(self, before: u64) -> bool
        ensures { IsTrue result ↔ IsClosedBefore self before }
    {
        match self {
            SegState::Closed { seq } => seq < before,
            _ => false,
        }
    }
}
