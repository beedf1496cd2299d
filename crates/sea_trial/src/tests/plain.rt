ghost use Rattle.std.specs.Prelude.{vec_len};
ghost use Rattle.std.specs.List.Sorted.{IsSearchInRange};

use sea_base::{Data, Duplicate, Key, NoMemory};
use std::alloc::Global;

// A plain list of pairs, which rises by the bytes of the keys.
#[derive(Drop)]
pub struct PlainList {
    pairs: Vec<(Key, Data)>,
}

impl PlainList {
    pub fn new(alloc: Global) -> PlainList {
        PlainList {
            pairs: Vec::new(alloc),
        }
    }

    pub fn pairs(&self) -> &[(Key, Data)] {
        &self.pairs
    }

    // Where a key stands, or where it would.
    fn place(&self, key: &Key) -> Result<usize, usize>
        ensures { IsSearchInRange result (vec_len self.now.pairs) }
    {
        self.pairs
            .binary_search_by(|pair| pair.0.bytes().cmp(key.bytes()))
    }

    pub fn get(&self, key: &Key) -> Result<Option<Data>, NoMemory> {
        match self.place(key) {
            Ok(index) => Ok(Some(self.pairs[index].1.copy()?)),
            Err(_) => Ok(None),
        }
    }

    // Puts a value under a key, and answers the one that was there.
    pub fn put(&mut self, key: Key, value: Data) -> Result<Option<Data>, NoMemory> {
        let old = self.del(&key);
        let (Ok(index) | Err(index)) = self.place(&key);
        self.pairs.insert(index, (key, value))?;
        Ok(old)
    }

    // Takes a key out, and answers the value that was there.
    pub fn del(&mut self, key: &Key) -> Option<Data> {
        let index = self.place(key).ok()?;
        let (_, old) = self.pairs.remove(index);
        Some(old)
    }

    // The first `limit` pairs with keys above one.
    pub fn above(&self, after: &Key, limit: usize) -> &[(Key, Data)] {
        let first = match self.place(after) {
            Ok(index) => index + 1,
            Err(index) => index,
        };
        let end = self.pairs.len().min(first.saturating_add(limit));
        &self.pairs[first..end]
    }
}
