//! Taking a range of keys out of an object's omap.
ghost use Rattle.std.specs.Prelude.{◌≡◌, ◌+◌, ◌-◌, ◌<◌, ◌≤◌, ◌^◌, ◌++◌, [], ◌∷◌, cond, is_some, filter, take, min, length, map as each, IfOk, IfErr, OnOk};
ghost use Rattle.std.specs.FinMap as map;
ghost use Rattle.sea_base.specs.Ghosts.{IsReady, IsCall};
ghost use Rattle.sea_base.specs.Space.{Store, OnlyRead};
ghost use Rattle.sea_node.specs.Entries.{Values, IsBelow, key_order};
ghost use Rattle.std.specs.Ordering.{is_lt};
ghost use Rattle.sea_object.specs.Objects as model;
ghost use Rattle.sea_object.specs.Op.{IsCount};
ghost use Rattle.sea_object.specs.declared.op.Op.TheVariants.{OmapRmKeyRange};
ghost use Rattle.sea_tree.specs.Calls.{Meets, IsPathFault, IsOfSpace, space_fault};
ghost use Rattle.sea_ops.specs.Calls.{Ends, FailsUnlessFull};

use crate::asking::omap_root;
use crate::omap::omap_remove_keys;
use sea_base::{Duplicate, Key, Laddr, Name, Names, NoMemory, Pairs, Space};
use sea_object::{Item, Why};
use sea_omap::MOST_KEYS;
use sea_onode::find;
use sea_tree::{TreeFault, get, range};
use std::alloc::Global;
use std::cmp::Ordering;

/// Takes the first keys from one on and below another out of an object's omap, `bound` of them at
/// most, and answers how many there were. Where the first isn't below the other, only the onode is
/// read.
pub fn omap_remove_key_range<S: Space>(
    alloc: Global,
    space: &mut S,
    name: &Name,
    from: &Key,
    to: &Key,
    bound: u32,
) -> Result<Result<Item, Why>, TreeFault>
    requires ready { IsReady S.Space space.old }
    requires room { (S.seen space.old).next + 2 ^ 20 ≤ 2 ^ 62 + 2 ^ 46 }
    requires bound { IsCount bound MOST_KEYS }
    ensures ends { IfOk result (λ end. Ends (OmapRmKeyRange name.now from.now to.now bound) end
        (S.seen space.old) (S.seen space.new)) }
    ensures failure { IfErr result
        (FailsUnlessFull (2 ^ 25 - 2 ^ 20) (S.seen space.old) (S.seen space.new)) }
    ensures next { (S.seen space.new).next < (S.seen space.old).next + 2 ^ 21 }
    ensures call { IsCall S.Space space.old space.new (space_fault result) }
{
    let Some(onode) = find(space, name)? else {
        return Ok(Err(Why::NoObject));
    };
    if !is_below(from, to) {
        return Ok(Ok(Item::Number(0)));
    }
    let keys = keys_between(alloc, space, omap_root(&onode), from, to, bound)?;
    match omap_remove_keys(alloc, space, name, &keys)? {
        Ok(_) => Ok(Ok(Item::Number(keys.items().len() as u32))),
        Err(why) => Ok(Err(why)),
    }
}

// The first keys of a tree from one on and below another, which it is below.
fn keys_between<S: Space>(
    alloc: Global,
    space: &mut S,
    root: Laddr,
    from: &Key,
    to: &Key,
    bound: u32,
) -> Result<Names, TreeFault>
    requires ready { IsReady S.Space space.old }
    requires order { IsBelow from.now to.now }
    requires bound { IsCount bound MOST_KEYS }
    ensures keys { IfOk result (λ keys. (store : Store) (content : Values)
        → Meets store root.0 (S.seen space.old) (S.seen space.new) content
        → keys ≡ model.keys_between from.now to.now bound content) }
    ensures count { IfOk result (λ keys. length keys ≤ bound) }
    ensures fault { IfErr result (λ fault. (store : Store) (content : Values)
        → Meets store root.0 (S.seen space.old) (S.seen space.new) content → IsOfSpace fault) }
    ensures reads { OnlyRead (S.seen space.old) (S.seen space.new) }
    ensures call { IsCall S.Space space.old space.new (space_fault result) }
{
    let first = key_if_there(alloc, space, root, from)?;
    let rest = bound - first.items().len() as u32;
    let pairs = range(alloc, space, root, Some(from), rest)?;
    let keys = with_keys_below(first, &pairs, rest as usize, to)?;
    Ok(keys)
}

// A key, where a tree has it.
fn key_if_there<S: Space>(
    alloc: Global,
    space: &mut S,
    root: Laddr,
    key: &Key,
) -> Result<Names, TreeFault>
    requires ready { IsReady S.Space space.old }
    ensures keys { IfOk result (λ keys. (store : Store) (content : Values)
        → Meets store root.0 (S.seen space.old) (S.seen space.new) content
        → keys ≡ cond (is_some (map.get content key.now)) (key.now ∷ []) []) }
    ensures count { IfOk result (λ keys. length keys ≤ 1) }
    ensures fault { IfErr result
        (IsPathFault root.0 key.now (S.seen space.old) (S.seen space.new)) }
    ensures reads { OnlyRead (S.seen space.old) (S.seen space.new) }
    ensures call { IsCall S.Space space.old space.new (space_fault result) }
{
    let mut keys = Names::new(alloc);
    if get(space, root, key)?.is_some() {
        keys.push(key.copy()?)?;
    }
    Ok(keys)
}

// Keys, and behind them those of the first `most` pairs that are below a bound.
fn with_keys_below(keys: Names, pairs: &Pairs, most: usize, bound: &Key) -> Result<Names, NoMemory>
    ensures keys { IfOk result (λ all. all ≡ keys ++ filter (λ key. is_lt (key_order key bound.now))
        (each (λ pair. pair.0) (take (min most (length pairs.now)) pairs.now))) }
    ensures count { IfOk result (λ all. length all ≤ length keys + most) }
{
    let few = most.min(pairs.items().len());
    let mut all = keys;
    for (key, _) in &pairs.items()[..few] {
        if is_below(key, bound) {
            all.push(key.copy()?)?;
        }
    }
    Ok(all)
}

// Whether a key is below another.
fn is_below(key: &Key, bound: &Key) -> bool
    ensures { result ≡ is_lt (key_order key.now bound.now) }
{
    matches!(key.cmp(bound), Ordering::Less)
}
