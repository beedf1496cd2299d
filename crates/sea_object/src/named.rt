//! Ordered maps from names.
ghost use Rattle.std.specs.Prelude.{◌≡◌, IfOk};
ghost use Rattle.std.specs.FinMap.{from_entries};
ghost use Rattle.std.specs.Ordering.{nat_cmp};
ghost use Rattle.std.specs.Cmp.Lexicographic.{slice_cmp};
ghost use Rattle.std.specs.Ordering.{is_lt};
ghost use Rattle.std.specs.Option.{option_copied};
ghost use Rattle.sea_object.specs.Objects.{bound_behind};

use sea_base::{Duplicate, Name, NoMemory};
use std::alloc::Global;
use std::cmp::Ordering;
use std::collections::BTreeMap;
use std::ops::Bound;

/// An equal map.
pub(crate) fn copy_named<T: Duplicate + Drop>(
    alloc: Global,
    named: &BTreeMap<Name, T>,
) -> Result<BTreeMap<Name, T>, NoMemory>
    ensures { IfOk result (λ made.
        from_entries {R = slice_cmp nat_cmp} made.entries ≡ from_entries named.now.entries) }
{
    let mut made = BTreeMap::new(alloc);
    for (name, value) in named {
        made.insert(name.copy()?, value.copy()?)?;
    }
    Ok(made)
}

/// Whether a name stands before another.
pub(crate) fn is_below(name: &Name, other: &Name) -> bool
    ensures { result ≡ is_lt (slice_cmp nat_cmp name.now other.now) }
{
    matches!(name.cmp(other), Ordering::Less)
}

/// Where the names behind one begin, or all names.
pub(crate) fn behind(after: Option<&Name>) -> Result<Bound<Name>, NoMemory>
    ensures { IfOk result (λ start. start ≡ bound_behind (option_copied after.entry)) }
{
    match after {
        Some(name) => Ok(Bound::Excluded(name.copy()?)),
        None => Ok(Bound::Unbounded),
    }
}
