//! Keys of a tree changed one after the other.
ghost use Rattle.std.specs.Prelude.{◌≡◌, ◌+◌, ◌*◌, ◌≤◌, ◌<◌, ◌^◌, IfOk, IfErr, OnOk, is_none, is_some, length};
ghost use Rattle.std.specs.List.{All};
ghost use Rattle.std.specs.FinMap as map;
ghost use Rattle.sea_base.specs.Space.{Store};
ghost use Rattle.sea_base.specs.Ghosts.{IsReady, IsCall};
ghost use Rattle.sea_node.specs.Entries.{Values};
ghost use Rattle.sea_object.specs.Objects.{with_pairs, without_keys};
ghost use Rattle.sea_tree.specs.Calls.{space_fault};
ghost use Rattle.sea_omap.specs.Changes.{puts, removals};
ghost use Rattle.sea_omap.specs.Calls.{Meets, Becomes, Counts, Footprint, Fails};

use sea_base::{Laddr, Names, Pairs, Space};
use sea_node::VALUE_BYTES;
use sea_tree::{TreeFault, del, put};
use std::alloc::Global;

/// The most pairs or keys that one call takes.
pub const MOST_KEYS: usize = 65_536;

/// The most new nodes that the change of one key makes: one at each of eight levels, and one more
/// below a root that splits.
pub const NEW_NODES: u64 = 9;

/// Puts pairs into a tree in order, so that the last of one key stays, and answers how many keys
/// are new.
pub fn set<S: Space>(
    alloc: Global,
    space: &mut S,
    root: Laddr,
    pairs: &Pairs,
) -> Result<u32, TreeFault>
    requires ready { IsReady S.Space space.old }
    requires room { (S.seen space.old).next + 2 ^ 20 ≤ 2 ^ 62 + 2 ^ 46 }
    requires count { length pairs.now ≤ MOST_KEYS }
    requires values { All (λ pair. length pair.1 ≤ VALUE_BYTES) pairs.now }
    ensures changed { IfOk result (λ count. (store : Store) (content : Values)
        → Meets store root.0 (S.seen space.old) (S.seen space.new) content
        → (map.len (with_pairs pairs.now content) ≡ map.len content + count)
        × Becomes store root.0 (S.seen space.old) (S.seen space.new)
        (with_pairs pairs.now content)) }
    ensures form { IfOk result (λ count.
        Counts root.0 (puts pairs.now) is_none count (S.seen space.old) (S.seen space.new)) }
    ensures footprint { OnOk result
        (Footprint root.0 (length pairs.now) (S.seen space.old) (S.seen space.new)) }
    ensures failure { IfErr result
        (Fails root.0 (puts pairs.now) (S.seen space.old) (S.seen space.new)) }
    ensures next { ((S.seen space.old).next ≤ (S.seen space.new).next)
        × ((S.seen space.new).next < (S.seen space.old).next + 2 ^ 21)
        × OnOk result
        ((S.seen space.new).next ≤ (S.seen space.old).next + NEW_NODES * length pairs.now) }
    ensures call { IsCall S.Space space.old space.new (space_fault result) }
{
    let mut fresh = 0;
    for (key, value) in pairs.items() {
        if put(alloc, space, root, key, value)?.is_none() {
            fresh += 1;
        }
    }
    Ok(fresh)
}

/// Takes keys out of a tree in order, and answers how many were there.
pub fn unset<S: Space>(
    alloc: Global,
    space: &mut S,
    root: Laddr,
    keys: &Names,
) -> Result<u32, TreeFault>
    requires ready { IsReady S.Space space.old }
    requires room { (S.seen space.old).next + 2 ^ 20 ≤ 2 ^ 62 + 2 ^ 46 }
    requires count { length keys.now ≤ MOST_KEYS }
    ensures changed { IfOk result (λ count. (store : Store) (content : Values)
        → Meets store root.0 (S.seen space.old) (S.seen space.new) content
        → (map.len content ≡ map.len (without_keys keys.now content) + count)
        × Becomes store root.0 (S.seen space.old) (S.seen space.new)
        (without_keys keys.now content)) }
    ensures form { IfOk result (λ count.
        Counts root.0 (removals keys.now) is_some count (S.seen space.old) (S.seen space.new)) }
    ensures footprint { OnOk result
        (Footprint root.0 (length keys.now) (S.seen space.old) (S.seen space.new)) }
    ensures failure { IfErr result
        (Fails root.0 (removals keys.now) (S.seen space.old) (S.seen space.new)) }
    ensures next { ((S.seen space.old).next ≤ (S.seen space.new).next)
        × ((S.seen space.new).next < (S.seen space.old).next + 2 ^ 21)
        × OnOk result
        ((S.seen space.new).next ≤ (S.seen space.old).next + NEW_NODES * length keys.now) }
    ensures call { IsCall S.Space space.old space.new (space_fault result) }
{
    let mut gone = 0;
    for key in keys.items() {
        if del(alloc, space, root, key)?.is_some() {
            gone += 1;
        }
    }
    Ok(gone)
}
