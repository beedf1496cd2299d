//! A node read in its block, with no list of its entries.
ghost use Rattle.std.specs.Prelude.{◌≡◌, ℕ, ◌≤◌, List, IfOk, IfErr, MatchOption, IsTrue};
ghost use Rattle.sea_ptree.specs.Faults.{Reads, IsNodeFault};
ghost use Rattle.sea_ptree.specs.Node.{Entry};
ghost use Rattle.sea_ptree.specs.Tree.{NodeAt, Guides, IsBelowNext};

use crate::reading::entry_at;
use crate::{Blocks, Kind, Link, PFault};
use sea_base::{Block, Slot};

/// A node in its block.
#[derive(Debug, Drop)]
pub(crate) struct View {
    /// The block that spells the node.
    pub block: Block,
    /// How many entries it has.
    pub count: usize,
    ghost room: { count ≤ 145 },
}

impl View {
    ghost use Rattle.sea_ptree.specs.View.{Views, Parts};

    /// The node of a level that a link leads to.
    pub fn read<B: Blocks>(
        blocks: &mut B,
        kind: Kind,
        link: Link,
        level: u32,
    ) -> Result<View, PFault>
        requires { level ≤ 7 }
        ensures node { IfOk result (λ view. (entries : List Entry) × Views kind level view entries
            × (IsTrue (B.held blocks.old).tells → NodeAt kind
            (B.held blocks.old).image level link entries)) }
        ensures fault { IfErr result (IsNodeFault kind (B.held blocks.old)
            (B.held blocks.new) level link) }
        ensures kept { Reads (B.held blocks.old) (B.held blocks.new) result }
    {
        let checked = blocks.block(link.at, link.sum)?;
        let Some(view) = checked.into_view(kind, level) else {
            return Err(PFault::NoNode { block: link.at });
        };
        Ok(view)
    }

    /// The last entry whose key is not above a key.
    pub fn towards(&self, key: u64) -> Option<(u64, Slot)>
        ensures { (kind : Kind) (level : ℕ) (entries : List Entry)
            → Views kind level self.now entries
            → MatchOption result (IsBelowNext key entries) (Guides key entries) }
    {
        let count = self.count_upto(key);
        if count == 0 {
            return None;
        }
        Some(entry_at(&self.block, count - 1))
    }

    /// How many entries have keys that are not above a key.
    pub fn count_upto(&self, key: u64) -> usize
        ensures within { result ≤ 145 }
        ensures split { (kind : Kind) (level : ℕ) (entries : List Entry)
            → Views kind level self.now entries
            → Parts key entries result }
    {
        let mut low = 0;
        let mut high = self.count;
        while low < high {
            let middle = low + (high - low) / 2;
            if entry_at(&self.block, middle).0 <= key {
                low = middle + 1;
            } else {
                high = middle;
            }
        }
        low
    }
}
