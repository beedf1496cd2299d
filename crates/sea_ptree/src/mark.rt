//! Which node a block spells.
ghost use Rattle.sea_ptree.specs.Mark.{IsMarkOf};

use crate::Kind;
use crate::reading::{LEVEL_AT, entry_count};
use sea_base::Block;

/// What is told of a node by the block that spells it.
#[derive(Clone, Copy, Debug, PartialEq, Eq)]
pub(crate) struct Mark {
    /// Which tree the node is of.
    pub kind: Kind,
    /// Its level.
    pub level: u32,
    /// How many entries it has.
    pub count: usize,
}

impl Mark {
    /// The mark of the node that a block spells, if it spells one. Each byte of it is looked at.
    pub fn of(block: &Block) -> Option<Mark>
        ensures { IsMarkOf block.now result }
    {
        let level = u32::from(block.bytes()[LEVEL_AT]);
        if level > 7 {
            return None;
        }
        if let Some(count) = entry_count(block, Kind::Mapping, level) {
            return Some(Mark {
                kind: Kind::Mapping,
                level,
                count,
            });
        }
        let count = entry_count(block, Kind::Owners, level)?;
        Some(Mark {
            kind: Kind::Owners,
            level,
            count,
        })
    }
}
