//! Reading a tree: the value under a key, and the pairs above one.
ghost use Rattle.std.specs.Prelude.{◌≡◌, ◌≤◌, ◌++◌, ◌∷◌, [], IfOk, IfErr, OnOk, IsTrue, take, length};
ghost use Rattle.std.specs.Option.{option_copied, unwrap_or};
ghost use Rattle.std.specs.FinMap as map;
ghost use Rattle.sea_base.specs.Space.{Store, OnlyRead};
ghost use Rattle.sea_node.specs.Entries.{Values};
ghost use Rattle.sea_tree.specs.Calls.{Meets, pairs_above, IsPathFault, IsRangeFault, WalksWhole, IsWholePath};
ghost use Rattle.sea_tree.specs.Reads.{ReadsPath, ReadsRange};
ghost use Rattle.sea_tree.specs.Range.{is_above, entries_above};
ghost use Rattle.sea_base.specs.Ghosts.{IsReady, IsCall};
ghost use Rattle.sea_tree.specs.Calls.{space_fault};

use crate::TreeFault;
use crate::cursor::Cursor;
use crate::leaf::Leaf;
use crate::lookup::look_up;
use crate::place::Bounds;
use sea_base::{Data, Duplicate, Key, Laddr, NoMemory, Pairs, Space};
use sea_node::Node;
use std::alloc::Global;

/// The value under a key.
pub fn get<S: Space>(space: &mut S, root: Laddr, key: &Key) -> Result<Option<Data>, TreeFault>
    requires { IsReady S.Space space.old }
    ensures value { IfOk result (λ found. (store : Store) (content : Values)
        → Meets store root.0 (S.seen space.old) (S.seen space.new) content
        → found ≡ map.get content key.now) }
    ensures whole { OnOk result (IsWholePath root.0 key.now (S.seen space.old) (S.seen space.new)) }
    ensures fault { IfErr result
        (IsPathFault root.0 key.now (S.seen space.old) (S.seen space.new)) }
    ensures within { ReadsPath root.0 key.now (S.seen space.old) (S.seen space.new) }
    ensures reads { OnlyRead (S.seen space.old) (S.seen space.new) }
    ensures call { IsCall S.Space space.old space.new (space_fault result) }
{
    let Some(leaf) = look_up(space, root, key)? else {
        return Ok(None);
    };
    let Leaf { value, .. } = leaf;
    Ok(value)
}

/// The first `limit` pairs with keys above a bound, or with none all keys. A leaf is read only
/// while pairs are wanting.
pub fn range<S: Space>(
    alloc: Global,
    space: &mut S,
    root: Laddr,
    after: Option<&Key>,
    limit: u32,
) -> Result<Pairs, TreeFault>
    requires { IsReady S.Space space.old }
    ensures pairs { IfOk result (λ found. (store : Store) (content : Values)
        → Meets store root.0 (S.seen space.old) (S.seen space.new) content
        → found ≡ take limit (pairs_above (option_copied after.entry) content)) }
    ensures whole { IfOk result (λ found.
        WalksWhole root.0 (unwrap_or (option_copied after.entry) (0 ∷ [])) limit found
        (S.seen space.old) (S.seen space.new)) }
    ensures fault { IfErr result
        (IsRangeFault root.0 (unwrap_or (option_copied after.entry) (0 ∷ []))
        (S.seen space.old) (S.seen space.new)) }
    ensures within { IfOk result (λ found.
        ReadsRange root.0 (unwrap_or (option_copied after.entry) (0 ∷ [])) limit found
        (S.seen space.old) (S.seen space.new)) }
    ensures reads { OnlyRead (S.seen space.old) (S.seen space.new) }
    ensures call { IsCall S.Space space.old space.new (space_fault result) }
{
    let mut found = Pairs::new(alloc);
    if limit == 0 {
        return Ok(found);
    }
    let least = Bounds::root(alloc)?;
    let first = after.unwrap_or(&least.lower);
    let Some(mut cursor) = Cursor::seek(alloc, space, root, first)? else {
        return Ok(found);
    };
    take_above(&mut found, &cursor.leaf, after, limit)?;
    'leaves: while found.items().len() < limit as usize {
        let Some(next) = cursor.next(alloc, space)? else {
            return Ok(found);
        };
        take_above(&mut found, &next.leaf, after, limit)?;
        cursor = next;
    }
    Ok(found)
}

// Appends the pairs of a leaf with keys above a bound, up to `limit` in all.
fn take_above(
    found: &mut Pairs,
    leaf: &Node,
    after: Option<&Key>,
    limit: u32,
) -> Result<(), NoMemory>
    requires { length found.old ≤ limit }
    ensures { OnOk result (found.new
        ≡ take limit (found.old ++ entries_above (option_copied after.entry) leaf.now.entries)) }
{
    let entries = leaf.entries.items();
    for (key, value) in entries {
        if found.items().len() >= limit as usize {
            return Ok(());
        }
        if comes_after(key, after) {
            found.push((key.copy()?, value.copy()?))?;
        }
    }
    Ok(())
}

// Whether a key is above a bound, if there is one.
fn comes_after(key: &Key, bound: Option<&Key>) -> bool
    ensures { result ≡ is_above (option_copied bound.entry) key.now }
{
    match bound {
        Some(bound) => bound < key,
        None => true,
    }
}
