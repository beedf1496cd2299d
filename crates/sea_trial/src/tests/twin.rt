use super::empty_tree;
use super::plain::PlainList;
use crate::fault::TrialFault;
use crate::map_tree::MapTree;
use sea_base::{Data, Key};
use std::alloc::Global;
use std::process::Abort;

// A tree beside a plain list, which every call is made on as well.
#[derive(Drop)]
pub struct Twin {
    tree: MapTree,
    list: PlainList,
}

impl Twin {
    pub fn new(alloc: Global) -> Twin {
        Twin {
            tree: empty_tree(alloc),
            list: PlainList::new(alloc),
        }
    }

    pub fn list(&self) -> &PlainList {
        &self.list
    }

    pub fn level(&mut self) -> Result<u8, TrialFault> {
        self.tree.level()
    }

    pub fn get(&mut self, rt: &impl Abort, key: &Key) -> Result<(), TrialFault> {
        assert_eq!(rt; self.tree.get(key)?, self.list.get(key)?);
        Ok(())
    }

    pub fn range(&mut self, rt: &impl Abort, after: &Key, limit: u8) -> Result<(), TrialFault> {
        let found = self.tree.range(Some(after), u32::from(limit))?;
        assert_eq!(rt; found.items(), self.list.above(after, usize::from(limit)));
        Ok(())
    }

    pub fn put(&mut self, rt: &impl Abort, key: Key, value: Data) -> Result<(), TrialFault> {
        let old = self.tree.put(&key, &value)?;
        assert_eq!(rt; old, self.list.put(key, value)?);
        Ok(())
    }

    pub fn del(&mut self, rt: &impl Abort, key: &Key) -> Result<(), TrialFault> {
        assert_eq!(rt; self.tree.del(key)?, self.list.del(key));
        Ok(())
    }

    // The tree is well formed, and has as many pairs as the list.
    pub fn check(&mut self, rt: &impl Abort) -> Result<(), TrialFault> {
        let pairs = self.list.pairs().len() as u64;
        assert_eq!(rt; self.tree.check()?.pairs, pairs);
        Ok(())
    }

    // The tree has the pairs of the list.
    pub fn compare(&mut self, rt: &impl Abort) -> Result<(), TrialFault> {
        let found = self.tree.range(None, u32::MAX)?;
        assert_eq!(rt; found.items(), self.list.pairs());
        Ok(())
    }
}
