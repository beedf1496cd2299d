//! A change of one node's entries.
ghost use Rattle.std.specs.Prelude.{◌≡◌, ◌++◌, IfOk, OnOk};
ghost use Rattle.std.specs.Option.{option_copied};
ghost use Rattle.sea_node.specs.Entries.{IsRising, edited};
ghost use Rattle.sea_tree.specs.Mending.{after_edit, moved};

use sea_base::{Data, Duplicate, Key, NoMemory, Pairs};
use std::alloc::Global;

/// A change of one node's entries.
#[derive(Debug, Drop)]
pub(crate) enum Edit {
    /// One pair comes, goes or has another value.
    Pair {
        /// The key.
        key: Key,
        /// The value that comes, or none.
        value: Option<Data>,
    },
    /// One entry has another key.
    Moved {
        /// The key that it had.
        from: Key,
        /// The key that it has then.
        to: Key,
    },
}

impl Edit {
    /// The entries of a node after the change.
    pub(crate) fn applied(&self, alloc: Global, entries: &[(Key, Data)]) -> Result<Pairs, NoMemory>
        requires { IsRising entries.now }
        ensures { IfOk result (λ changed. changed ≡ after_edit self.now entries.now) }
    {
        match self {
            Edit::Pair { key, value } => with_pair(alloc, key, value.as_ref(), entries),
            Edit::Moved { from, to } => with_moved(alloc, from, to, entries),
        }
    }
}

// The entries with a value at a key, or without the key.
fn with_pair(
    alloc: Global,
    key: &Key,
    value: Option<&Data>,
    entries: &[(Key, Data)],
) -> Result<Pairs, NoMemory>
    requires { IsRising entries.now }
    ensures { IfOk result
        (λ changed. changed ≡ edited key.now (option_copied value.entry) entries.now) }
{
    let start = entries.partition_point(|entry| entry.0 < *key);
    let end = entries.partition_point(|entry| entry.0 <= *key);
    let mut changed = Pairs::new(alloc);
    push_copies(&mut changed, &entries[..start])?;
    if let Some(value) = value {
        changed.push((key.copy()?, value.copy()?))?;
    }
    push_copies(&mut changed, &entries[end..])?;
    Ok(changed)
}

// The entries with another key in the place of one.
fn with_moved(
    alloc: Global,
    from: &Key,
    to: &Key,
    entries: &[(Key, Data)],
) -> Result<Pairs, NoMemory>
    ensures { IfOk result (λ changed. changed ≡ moved from.now to.now entries.now) }
{
    let mut changed = Pairs::new(alloc);
    for (key, value) in entries {
        let key = if key == from { to } else { key };
        changed.push((key.copy()?, value.copy()?))?;
    }
    Ok(changed)
}

/// Appends copies of entries, which share their bytes.
pub(crate) fn push_copies(pairs: &mut Pairs, entries: &[(Key, Data)]) -> Result<(), NoMemory>
    ensures { OnOk result (pairs.new ≡ pairs.old ++ entries.now) }
{
    for (key, value) in entries {
        pairs.push((key.copy()?, value.copy()?))?;
    }
    Ok(())
}
