//! A run laid over the pairs of a leaf.
ghost use Rattle.std.specs.Prelude.{◌≡◌, ◌+◌, ◌<◌, ◌≤◌, ◌^◌, not, length, IfOk, OnOk};
ghost use Rattle.std.specs.Ordering.{nat_cmp, eq_by_cmp};
ghost use Rattle.std.specs.FinMap.Entries.{put, where_key};
ghost use Rattle.sea_ptree.specs.Laying.{pairs_laid_over, pairs_updated, IsPlaceOf, RunFits};
ghost use Rattle.sea_ptree.specs.Laying.{UpdateFits};
ghost use Rattle.sea_ptree.specs.Node.{Fits, IsRising};

use sea_base::{NoMemory, Slot};

/// Lays a run over pairs whose keys rise.
pub(crate) fn lay_over(
    mut pairs: Vec<(u64, Slot)>,
    run: &[(u64, Option<Slot>)],
) -> Result<Vec<(u64, Slot)>, NoMemory>
    requires { length pairs.items + length run.now ≤ 209 }
    ensures laid { IfOk result (λ made. IsRising pairs.items → made.items
        ≡ pairs_laid_over run.now pairs.items) }
    ensures fits { OnOk result (RunFits run.now) }
    ensures few { IfOk result (λ made. length made.items
        ≤ length pairs.items + length run.now) }
{
    for (key, slot) in run {
        update(&mut pairs, *key, *slot)?;
    }
    Ok(pairs)
}

// Gives a key a slot, or takes its pair out.
fn update(pairs: &mut Vec<(u64, Slot)>, key: u64, slot: Option<Slot>) -> Result<(), NoMemory>
    requires { length pairs.old.items < 209 }
    ensures updated { OnOk result (IsRising pairs.old.items → pairs.new.items
        ≡ pairs_updated key slot pairs.old.items) }
    ensures fits { UpdateFits (key, slot) }
    ensures few { OnOk result (length pairs.new.items ≤ length pairs.old.items + 1) }
{
    match slot {
        Some(slot) => put_pair(pairs, key, slot),
        None => {
            remove_pair(pairs, key);
            Ok(())
        }
    }
}

// Gives a key a slot.
fn put_pair(pairs: &mut Vec<(u64, Slot)>, key: u64, slot: Slot) -> Result<(), NoMemory>
    requires { length pairs.old.items < 209 }
    ensures put { OnOk result (pairs.new.items ≡ put nat_cmp key slot pairs.old.items) }
    ensures fits { Fits (key, slot) }
    ensures few { OnOk result (length pairs.new.items ≤ length pairs.old.items + 1) }
{
    let index = count_below(pairs, key);
    if index < pairs.len() && pairs[index].0 == key {
        pairs[index] = (key, slot);
    } else {
        pairs.insert(index, (key, slot))?;
    }
    Ok(())
}

// Takes the pair of a key out, if there is one.
fn remove_pair(pairs: &mut Vec<(u64, Slot)>, key: u64)
    ensures removed { IsRising pairs.old.items → pairs.new.items
        ≡ where_key nat_cmp (λ other. not (eq_by_cmp nat_cmp key other)) pairs.old.items }
    ensures fits { key < 2 ^ 64 }
    ensures few { length pairs.new.items ≤ length pairs.old.items }
{
    let index = count_below(pairs, key);
    if index < pairs.len() && pairs[index].0 == key {
        pairs.remove(index);
    }
}

// How many pairs stand before the first one whose key is not below a key.
fn count_below(pairs: &[(u64, Slot)], key: u64) -> usize
    ensures { IsPlaceOf key pairs.now result }
{
    for (index, pair) in pairs.iter().enumerate() {
        if pair.0 >= key {
            return index;
        }
    }
    pairs.len()
}
