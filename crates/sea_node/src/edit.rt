//! The splice that edits a node.
ghost use Rattle.std.specs.Prelude.{◌≡◌, ◌+◌, ◌<◌, ◌≤◌, ◌^◌, length, IfOk, IfSome};
ghost use Rattle.std.specs.Option.{option_copied};
ghost use Rattle.sea_base.specs.Splice.{IsSplice, spliced};
ghost use Rattle.sea_node.specs.Entries.{IsRising, size, edited, entries_before, entries_at, entry_put};
ghost use Rattle.sea_node.specs.Node.{IsNode, node_bytes};

use crate::Node;
use crate::entry::{push_entry, size_of_entry};
use crate::node::{FRONT_BYTES, ROOM_BYTES};
use sea_base::{Data, Delta, Key, NoMemory};
use std::alloc::Global;
use std::cmp::Ordering;

#[cfg(test)]
mod tests;

// Where a key stands among the entries.
#[derive(Drop)]
pub(crate) struct Place {
    // The bytes of the entries before it.
    pub before: usize,
    // The bytes of its own entry, or 0.
    pub size: usize,
}

impl Node {
    /// The splice of the node's block that puts a value under a key, or with none removes the key.
    /// It replaces whole entries, also where the value is equal.
    pub fn edit(&self, alloc: Global, key: &Key, value: Option<&Data>) -> Result<Delta, NoMemory>
        requires node { IsNode self.now.level self.now.entries }
        requires edited { IsNode self.now.level
            (edited key.now (option_copied value) self.now.entries) }
        ensures cut { IfOk result (λ delta.
            delta.cut ≡ FRONT_BYTES + size (entries_before key.now self.now.entries)) }
        ensures gone { IfOk result
            (λ delta. delta.gone ≡ size (entries_at key.now self.now.entries)) }
        ensures put { IfOk result
            (λ delta. delta.put ≡ entry_put key.now (option_copied value.entry)) }
        ensures fits { IfOk result (λ delta. IsSplice delta.cut delta.gone delta.put) }
        ensures splice { IfOk result (λ delta.
            spliced delta.cut delta.gone delta.put (node_bytes self.now.level self.now.entries)
            ≡ node_bytes self.now.level
            (edited key.now (option_copied value.entry) self.now.entries)) }
    {
        let place = self.place(key);
        Ok(Delta {
            cut: (FRONT_BYTES + place.before) as u16,
            gone: place.size as u16,
            put: bytes_put(alloc, key, value)?,
        })
    }

    fn place(&self, key: &Key) -> Place
        requires rising { IsRising self.now.entries }
        requires fits { size self.now.entries ≤ ROOM_BYTES }
        ensures before { result.before ≡ size (entries_before key.now self.now.entries) }
        ensures size { result.size ≡ size (entries_at key.now self.now.entries) }
    {
        let mut before = 0;
        for (at, value) in self.entries.items() {
            match at.cmp(key) {
                Ordering::Less => before += size_of_entry(at, value),
                Ordering::Equal => {
                    return Place {
                        before,
                        size: size_of_entry(at, value),
                    };
                }
                Ordering::Greater => break,
            }
        }
        Place { before, size: 0 }
    }
}

// The bytes of the entry that comes in, if one does.
pub(crate) fn bytes_put(alloc: Global, key: &Key, value: Option<&Data>) -> Result<Data, NoMemory>
    requires { IfSome (option_copied value) (λ value. length value < 2 ^ 16) }
    ensures { IfOk result (λ put. put ≡ entry_put key.now (option_copied value.entry)) }
{
    let mut bytes = Vec::new(alloc);
    if let Some(value) = value {
        push_entry(&mut bytes, key, value)?;
    }
    Data::from_vec(bytes)
}
