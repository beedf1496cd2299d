ghost use Rattle.std.specs.Prelude.{true};
ghost use Rattle.std.proofs.Common.{refl, ◌∙◌};
ghost use Rattle.sea_base.specs.MapSpace.{seen_of, none_current, KeepsListed, seen_sound, shows_nothing};

use crate::fault::TrialFault;
use crate::keys::key_of;
use crate::map_tree::ROOT;
use crate::trial::filled_tree;
use sea_base::{Block, Delta, Laddr, MapSpace, Space, SpaceFault};
use sea_tree::get;
use std::alloc::Global;

// A space in memory whose gets are counted.
#[derive(Drop)]
struct CountingSpace {
    space: MapSpace,
    gets: u32,
}

impl Space for CountingSpace {
    ghost seen = { λ counting. seen_of counting.space };

    ghost current = { λ counting. none_current counting.space };

    ghost faults = { λ counting. ⟦<MapSpace as Space>⟧.faults counting.space };

    ghost tells = { λ counting. true };

    ghost ready = { λ counting. true };

    ghost keeps = { λ old new. KeepsListed old.space new.space };

    ghost sound = { λ counting. seen_sound counting.space };

    ghost frame = { record { reflexive = λ s. refl; transitive = λ a b c first later. later ∙ first; shared = λ a b kept at. refl } };

    ghost shows = { λ counting _. shows_nothing counting.space };

    fn get(&mut self, at: Laddr) -> Result<Option<Block>, SpaceFault> {
        self.gets = self.gets.saturating_add(1);
        self.space.get(at)
    }

    fn put(&mut self, at: Laddr, block: Block) -> Result<(), SpaceFault> {
        self.space.put(at, block)
    }

    fn amend(&mut self, at: Laddr, delta: Delta, block: Block) -> Result<(), SpaceFault> {
        self.space.amend(at, delta, block)
    }

    fn drop_at(&mut self, at: Laddr) -> Result<(), SpaceFault> {
        self.space.drop_at(at)
    }

    fn alloc(&mut self, count: u64) -> Result<Laddr, SpaceFault> {
        self.space.alloc(count)
    }
}

// How many gets a lookup of a key makes, or none where it finds nothing.
fn gets_of(alloc: Global, space: &mut CountingSpace, number: u32) -> Result<u32, TrialFault> {
    space.gets = 0;
    let key = key_of(alloc, number)?;
    let found = get(space, ROOT, &key)?;
    Ok(if found.is_some() { space.gets } else { 0 })
}

// The space of a tree of 10,000 pairs, and how many levels the tree has.
fn large_tree(alloc: Global) -> Result<(CountingSpace, u32), TrialFault> {
    let mut tree = filled_tree(alloc, 10_000)?;
    let levels = u32::from(tree.level()?) + 1;
    let space = CountingSpace {
        space: tree.into_space(),
        gets: 0,
    };
    Ok((space, levels))
}

#[test]
fn a_lookup_reads_a_block_a_level(rt: HostRuntime) -> Result<(), TrialFault> {
    let alloc = rt.alloc();
    let (mut space, levels) = large_tree(alloc)?;
    assert!(rt; levels > 1);
    for number in 0..100 {
        assert!(rt; gets_of(alloc, &mut space, number * 97)? == levels);
    }
    Ok(())
}
