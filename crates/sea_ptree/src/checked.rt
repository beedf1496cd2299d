//! A block that was tested once.
ghost use Rattle.std.specs.Prelude.{◌≡◌, List, IfOk, IfSome, IfNone};
ghost use Rattle.sea_ptree.specs.Node.{Entry, Spells};

use crate::Kind;
use crate::mark::Mark;
use crate::view::View;
use sea_base::{Block, NoMemory};
use std::marker::Model;

/// A block of which is known which node it spells, or that it spells none. It is tested as this is
/// made, and then no more. Contracts see the bytes.
#[derive(Debug, Drop)]
pub struct Checked {
    block: Block,
    mark: Option<Mark>,
}

impl Model for Checked {
    ghost use Rattle.std.specs.Prelude.{List, ℕ};
    ghost use Rattle.sea_ptree.specs.Mark.{IsMarkOf};

    ghost Value = { List ℕ };

    ghost view = { λ c. c.block };

    ghost invariant = { λ c. IsMarkOf c.block c.mark };
}

impl Checked {
    ghost use Rattle.sea_ptree.specs.View.{Views};

    /// Tests a block.
    pub fn new(block: Block) -> Checked
        ensures { result ≡ block }
    {
        let mark = Mark::of(&block);
        Checked { block, mark }
    }

    /// The block.
    pub fn block(&self) -> &Block
        ensures { result.now ≡ self.now }
    {
        &self.block
    }

    /// An equal one, which shares the bytes. Nothing is tested.
    pub fn share(&self) -> Result<Checked, NoMemory>
        ensures { IfOk result (λ checked. checked ≡ self.now) }
    {
        let block = self.block.share()?;
        Ok(Checked {
            block,
            mark: self.mark,
        })
    }

    /// The node of a kind and a level, if the block spells one.
    pub(crate) fn into_view(self, kind: Kind, level: u32) -> Option<View>
        ensures some { IfSome result (λ view. (view.block ≡ self)
            × ((entries : List Entry) × Views kind level view entries)) }
        ensures none { IfNone result ((entries : List Entry) → Spells kind self level entries → ⊥) }
    {
        let mark = self.mark?;
        if mark.kind != kind || mark.level != level {
            return None;
        }
        Some(View {
            block: self.block,
            count: mark.count,
        })
    }
}
