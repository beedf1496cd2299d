//! Fresh nodes, and the old ones in whose place they stand.
ghost use Rattle.std.specs.Prelude.{◌≡◌, ◌+◌, ◌<◌, ◌≤◌, ◌^◌, ◌++◌, ◌∷◌, [], length, IfOk, OnOk};
ghost use Rattle.std.specs.Prelude.{IfErr, IsTrue};
ghost use Rattle.sea_ptree.specs.Faults.{Reads, IsNodeFault};
ghost use Rattle.sea_ptree.specs.Tree.{NodeAt};

use crate::node::{print_node, read_entries};
use crate::view::View;
use crate::{Blocks, Kind, Link, PFault};
use sea_base::{Block, Commit, NoMemory, PRoot, Paddr, Sequence, Slot, sum_of};
use std::alloc::Global;

/// What a change of a tree makes: its new root, fresh nodes, and the nodes that it no longer has.
#[derive(Debug, Drop)]
pub struct Fresh {
    /// The new root.
    pub root: PRoot,
    /// The blocks of the fresh nodes, which stand one after the other, children before parents.
    pub nodes: Sequence<Block>,
    /// The places of the old nodes that are no longer reached.
    pub dead: Sequence<Paddr>,
}

/// Fresh nodes so far, and the old nodes that go.
#[derive(Debug, Drop)]
pub(crate) struct Making {
    /// Where memory is taken.
    pub alloc: Global,
    /// Which tree it is.
    pub kind: Kind,
    /// The place of the first fresh node.
    pub place: u32,
    /// The blocks of the fresh nodes.
    pub nodes: Vec<Block>,
    /// The places of the old nodes that go.
    pub dead: Vec<Paddr>,
}

impl Making {
    ghost use Rattle.sea_ptree.specs.Making.{Starts, Took, Wrote, IsMade};

    /// Nothing made so far.
    pub fn new(alloc: Global, kind: Kind, place: Paddr) -> Making
        ensures { Starts kind place.0 result }
    {
        Making {
            alloc,
            kind,
            place: place.0,
            nodes: Vec::new(alloc),
            dead: Vec::new(alloc),
        }
    }

    /// The entries of the node of a level that a link leads to. The node goes.
    pub fn take<B: Blocks>(
        &mut self,
        blocks: &mut B,
        link: Link,
        level: u32,
    ) -> Result<Vec<(u64, Slot)>, PFault>
        requires { level ≤ 7 }
        ensures node { IfOk result (λ es. IsTrue (B.held blocks.old).tells → NodeAt self.old.kind
            (B.held blocks.old).image level link es.items) }
        ensures few { IfOk result (λ es. (1 ≤ length es.items) × (length es.items ≤ 145)) }
        ensures took { OnOk result (Took self.old self.new link.at) }
        ensures fault { IfErr result (IsNodeFault self.old.kind (B.held blocks.old)
            (B.held blocks.new) level link) }
        ensures kept { Reads (B.held blocks.old) (B.held blocks.new) result }
    {
        let view = View::read(blocks, self.kind, link, level)?;
        self.dead.push(link.at)?;
        let entries = read_entries(self.alloc, &view.block, view.count)?;
        Ok(entries)
    }

    /// Writes a fresh node of a level with these entries, and gives the entry that leads to it.
    pub fn write(&mut self, level: u32, entries: &[(u64, Slot)]) -> Result<(u64, Slot), NoMemory>
        requires level { level ≤ 7 }
        requires some { 1 ≤ length entries.now }
        requires few { length entries.now ≤ 145 }
        requires room { self.old.place + length self.old.nodes.items < 2 ^ 32 }
        ensures { IfOk result (Wrote self.old self.new level entries.now) }
    {
        let block = print_node(self.alloc, self.kind, level, entries)?;
        let slot = Slot {
            at: Paddr(self.place + self.nodes.len() as u32),
            version: Commit(0),
            sum: sum_of(&block),
        };
        self.nodes.push(block)?;
        Ok((entries[0].0, slot))
    }

    /// What was made, under its root.
    pub fn done(self, root: PRoot) -> Fresh
        ensures { IsMade self root result }
    {
        let Making {
            alloc: _,
            kind: _,
            place: _,
            nodes,
            dead,
        } = self;
        Fresh {
            root,
            nodes: Sequence::from_vec(nodes),
            dead: Sequence::from_vec(dead),
        }
    }
}
