//! A node that was changed, put among its neighbours: split, joined, or evened out.
ghost use Rattle.std.specs.Prelude.{◌≡◌, ◌+◌, ◌<◌, ◌≤◌, ◌^◌, ◌++◌, length, IfOk, OnOk, IfErr};
ghost use Rattle.std.specs.Prelude.{IsTrue};
ghost use Rattle.sea_ptree.specs.Faults.{Reads};
ghost use Rattle.sea_ptree.specs.Making.{Onward};
ghost use Rattle.sea_ptree.specs.Mending.{Gathered, IsSettled, IsFaultNear, SettlesRoot};
ghost use Rattle.sea_ptree.specs.Mending.{WroteParts, root_of};

use crate::reading::MOST_ENTRIES;
use crate::{Blocks, Link, Making, PFault};
use sea_base::{NoMemory, PRoot, Paddr, Slot, Sum};

/// A node but the root has these entries at least.
const LEAST_ENTRIES: usize = 37;

/// Some entries of a node, and those of the children that they lead to, in one list.
#[derive(Drop)]
pub(crate) struct Span {
    /// The first of the entries.
    pub from: usize,
    /// Behind the last of them.
    pub to: usize,
    /// The entries of the children.
    pub entries: Vec<(u64, Slot)>,
}

impl Making {
    /// The entries of a node whose child at an index is to have other entries. The child is split
    /// where it has too many, and goes together with a neighbour where it has too few.
    pub fn settle<B: Blocks>(
        &mut self,
        blocks: &mut B,
        level: u32,
        entries: &[(u64, Slot)],
        index: usize,
        below: Vec<(u64, Slot)>,
    ) -> Result<Vec<(u64, Slot)>, PFault>
        requires level { level ≤ 6 }
        requires index { index < length entries.now }
        requires few { (length entries.now ≤ 145) × (length below.items ≤ 209) }
        requires room { self.old.place + length self.old.nodes.items + 2 ≤ 2 ^ 24 }
        ensures settled { IsTrue (B.held blocks.old).tells → IfOk result (λ made. IsSettled
            self.old.kind (B.held blocks.old).image level entries.now index below.items self.old
            self.new made.items) }
        ensures few { IfOk result (λ made. length made.items ≤ 146) }
        ensures onward { OnOk result (Onward self.old self.new) }
        ensures nodes { OnOk result (length self.new.nodes.items
            ≤ length self.old.nodes.items + 2) }
        ensures fault { IfErr result (IsFaultNear self.old.kind (B.held blocks.old)
            (B.held blocks.new) level entries.now) }
        ensures kept { Reads (B.held blocks.old) (B.held blocks.new) result }
    {
        let span = self.gather(blocks, level, entries, index, below)?;
        let parts = self.write_parts(level, &span.entries)?;
        let mut made = Vec::with_capacity(self.alloc, MOST_ENTRIES + 1)?;
        made.extend_from_slice(&entries[..span.from])?;
        made.extend_from_slice(&parts)?;
        made.extend_from_slice(&entries[span.to..])?;
        Ok(made)
    }

    // A child with what is to be its entries, and with its neighbour's where it has too few: the
    // one behind it or, where it is the last, the one before it. A neighbour that is taken goes.
    fn gather<B: Blocks>(
        &mut self,
        blocks: &mut B,
        level: u32,
        entries: &[(u64, Slot)],
        index: usize,
        below: Vec<(u64, Slot)>,
    ) -> Result<Span, PFault>
        requires level { level ≤ 6 }
        requires index { index < length entries.now }
        requires few { (length entries.now ≤ 145) × (length below.items ≤ 209) }
        ensures gathered { IsTrue (B.held blocks.old).tells → IfOk result (λ span. Gathered
            self.old.kind (B.held blocks.old).image level entries.now index below.items self.old
            self.new span.from span.to span.entries.items) }
        ensures few { IfOk result (λ span. length span.entries.items ≤ 209) }
        ensures within { IfOk result (λ span. (span.from < span.to)
            × (span.to ≤ length entries.now)) }
        ensures onward { OnOk result (Onward self.old self.new) }
        ensures nodes { OnOk result (self.new.nodes.items ≡ self.old.nodes.items) }
        ensures fault { IfErr result (IsFaultNear self.old.kind (B.held blocks.old)
            (B.held blocks.new) level entries.now) }
        ensures kept { Reads (B.held blocks.old) (B.held blocks.new) result }
    {
        if below.len() < LEAST_ENTRIES && index + 1 < entries.len() {
            let right = self.take(blocks, Link::of(entries[index + 1].1), level)?;
            let all = joined(below, &right)?;
            return Ok(Span {
                from: index,
                to: index + 2,
                entries: all,
            });
        }
        if below.len() < LEAST_ENTRIES && index > 0 {
            let left = self.take(blocks, Link::of(entries[index - 1].1), level)?;
            let all = joined(left, &below)?;
            return Ok(Span {
                from: index - 1,
                to: index + 1,
                entries: all,
            });
        }
        Ok(Span {
            from: index,
            to: index + 1,
            entries: below,
        })
    }

    // Writes the fresh nodes of a level that have these entries: one, or two halves where they are
    // too many, the smaller half first. Gives the entries that lead to them.
    fn write_parts(
        &mut self,
        level: u32,
        entries: &[(u64, Slot)],
    ) -> Result<Vec<(u64, Slot)>, NoMemory>
        requires level { level ≤ 7 }
        requires few { length entries.now ≤ 209 }
        requires room { self.old.place + length self.old.nodes.items + 2 ≤ 2 ^ 24 }
        ensures wrote { IfOk result (λ parts. WroteParts self.old self.new level entries.now
            parts.items) }
        ensures few { IfOk result (λ parts. length parts.items ≤ 2) }
        ensures onward { OnOk result (Onward self.old self.new) }
        ensures nodes { OnOk result (length self.new.nodes.items
            ≤ length self.old.nodes.items + 2) }
    {
        let mut parts = Vec::new(self.alloc);
        if entries.is_empty() {
            return Ok(parts);
        }
        if entries.len() <= MOST_ENTRIES {
            let whole = self.write(level, entries)?;
            parts.push(whole)?;
            return Ok(parts);
        }
        let half = entries.len() / 2;
        let front = self.write(level, &entries[..half])?;
        let back = self.write(level, &entries[half..])?;
        parts.push(front)?;
        parts.push(back)?;
        Ok(parts)
    }

    /// The root over what are to be the entries of the top node: none where nothing is left, and
    /// the child where it has one child alone.
    pub fn settle_root(&mut self, level: u32, entries: &[(u64, Slot)]) -> Result<PRoot, NoMemory>
        requires level { level ≤ 7 }
        requires few { length entries.now ≤ 209 }
        requires room { self.old.place + length self.old.nodes.items + 3 ≤ 2 ^ 24 }
        ensures settled { IfOk result (SettlesRoot self.old self.new level entries.now) }
        ensures nodes { OnOk result (length self.new.nodes.items
            ≤ length self.old.nodes.items + 3) }
        ensures height { IfOk result (λ root. root.height ≤ 8) }
        ensures onward { OnOk result (Onward self.old self.new) }
    {
        if entries.is_empty() {
            return Ok(PRoot {
                at: Paddr(0),
                height: 0,
                sum: Sum(0),
            });
        }
        if level > 0 && entries.len() == 1 {
            return Ok(root_over(entries[0].1, level));
        }
        if entries.len() <= MOST_ENTRIES {
            let (_, slot) = self.write(level, entries)?;
            return Ok(root_over(slot, level + 1));
        }
        if level == 7 {
            return Err(NoMemory);
        }
        let parts = self.write_parts(level, entries)?;
        let (_, slot) = self.write(level + 1, &parts)?;
        Ok(root_over(slot, level + 2))
    }
}

// Two lists, one behind the other.
fn joined(mut front: Vec<(u64, Slot)>, back: &[(u64, Slot)]) -> Result<Vec<(u64, Slot)>, NoMemory>
    ensures { IfOk result (λ all. all.items ≡ front.items ++ back.now) }
{
    front.extend_from_slice(back)?;
    Ok(front)
}

// The root of a height whose node a slot leads to.
fn root_over(slot: Slot, height: u32) -> PRoot
    ensures { result ≡ root_of slot height }
{
    PRoot {
        at: slot.at,
        height,
        sum: slot.sum,
    }
}
