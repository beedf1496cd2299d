//! The table of segments: the state of each, and how many of its blocks are live.
ghost use Rattle.std.specs.Prelude.{◌≡◌, ℕ, ◌+◌, ◌-◌, ◌<◌, ◌≤◌, ◌^◌, length, replicate, IfOk};
ghost use Rattle.std.specs.Prelude.{IfSome, IfNone};
ghost use Rattle.sea_segment.specs.Table.{fresh, segment_of, state_of, live_of, with_state};
ghost use Rattle.sea_segment.specs.Table.{with_live, empty_of, IsEmpty, IsLeastEmpty, MayBeVictim};
ghost use Rattle.sea_segment.specs.Table.{IsVictim};

use crate::{SegState, Segment};
use sea_base::NoMemory;
use std::alloc::Global;
use std::marker::Model;

/// A segment with so many live blocks is not worth cleaning.
pub const LIVE_ENOUGH: u32 = 1791;

const FRESH: Segment = Segment {
    state: SegState::Empty,
    live: 0,
};

/// The states of all segments and the counts of their live blocks, which contracts see as a list.
#[derive(Debug, Drop)]
pub struct Table {
    segments: Vec<Segment>,
    empty: u32,
}

impl Model for Table {
    ghost use Rattle.std.specs.Prelude.{List};
    ghost use Rattle.sea_segment.specs.declared.state.Segment.{Segment};
    ghost use Rattle.sea_segment.specs.Table.{IsCounted};

    ghost Value = { List Segment };

    ghost view = { λ t. t.segments.items };

    ghost invariant = { λ t. IsCounted t.segments.items t.empty };
}

impl Table {
    /// A table of segments that are all empty.
    pub fn new(alloc: Global, segments: u32) -> Result<Table, NoMemory>
        ensures { IfOk result (λ table. table ≡ replicate segments fresh) }
    {
        let empty = segments;
        let segments = vec![in alloc; FRESH; segments as usize]?;
        Ok(Table { segments, empty })
    }

    /// How many segments there are.
    pub fn len(&self) -> u32
        ensures { result ≡ length self.now }
    {
        self.segments.len() as u32
    }

    /// How many segments are empty.
    pub fn empty(&self) -> u32
        ensures { result ≡ empty_of self.now }
    {
        self.empty
    }

    /// The state of a segment.
    pub fn state(&self, segment: u32) -> SegState
        requires { segment < length self.now }
        ensures { result ≡ state_of self.now segment }
    {
        self.segments[segment as usize].state
    }

    /// How many blocks of a segment are live.
    pub fn live(&self, segment: u32) -> u32
        requires { segment < length self.now }
        ensures { result ≡ live_of self.now segment }
    {
        self.segments[segment as usize].live
    }

    /// Sets the state of a segment.
    pub fn set(&mut self, segment: u32, state: SegState)
        requires { segment < length self.old }
        ensures { self.new ≡ with_state self.old segment state }
    {
        let old = self.segments[segment as usize];
        self.segments[segment as usize] = Segment { state, ..old };
        let others = self.empty - old.state.is_empty() as u32;
        self.empty = others + state.is_empty() as u32;
    }

    /// Counts one more live block of a segment.
    pub fn add_live(&mut self, segment: u32)
        requires within { segment < length self.old }
        requires room { live_of self.old segment < 2047 }
        ensures { self.new ≡ with_live self.old segment (live_of self.old segment + 1) }
    {
        self.segments[segment as usize].live += 1;
    }

    /// Counts one live block of a segment less.
    pub fn take_live(&mut self, segment: u32)
        requires within { segment < length self.old }
        requires some { 0 < live_of self.old segment }
        ensures { self.new ≡ with_live self.old segment (live_of self.old segment - 1) }
    {
        self.segments[segment as usize].live -= 1;
    }

    /// The least empty segment.
    pub fn pick_empty(&self) -> Option<u32>
        ensures some { IfSome result (IsLeastEmpty self.now) }
        ensures none { IfNone result ((k : ℕ) → IsEmpty self.now k → ⊥) }
    {
        for (at, segment) in self.segments.iter().enumerate() {
            if segment.state.is_empty() {
                return Some(at as u32);
            }
        }
        None
    }

    /// The segment to clean: of the closed ones with a sequence number below this one, and fewer
    /// than 1,791 live blocks, one with the fewest, and of these the least.
    pub fn victim(&self, before: u64) -> Option<u32>
        ensures some { IfSome result (IsVictim self.now before) }
        ensures none { IfNone result ((k : ℕ) → MayBeVictim self.now before k → ⊥) }
    {
        let mut fewest = LIVE_ENOUGH;
        let mut victim = None;
        for (at, segment) in self.segments.iter().enumerate() {
            if segment.state.is_closed_before(before) && segment.live < fewest {
                fewest = segment.live;
                victim = Some(at as u32);
            }
        }
        victim
    }
}
