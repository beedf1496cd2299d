//! A store of objects beside the map of objects that it means.

use crate::fault::TrialFault;
use crate::store::ObjectStore;
use crate::tests::watched::WatchedSpace;
use sea_base::{Data, Duplicate, Key, Laddr, Nths, Pairs};
use sea_formed::{Blocks, Held, objects_in};
use sea_object::{Item, Items, Object, Objects, Op, Ops, Reply, Request};
use std::alloc::Global;
use std::process::Abort;

// A store of objects in memory, its blocks as the last request left them, and the map of objects that
// each request is done on as well.
#[derive(Drop)]
pub struct Twin {
    alloc: Global,
    store: ObjectStore<WatchedSpace>,
    blocks: Blocks,
    objects: Objects,
}

impl Twin {
    // A store without objects. The gets listed in `fails`, counted from 1, will fail.
    pub fn new(alloc: Global, fails: Nths) -> Twin {
        Twin {
            alloc,
            store: ObjectStore::new(alloc, WatchedSpace::new(alloc, fails)),
            blocks: Blocks::new(alloc),
            objects: Objects::new(alloc),
        }
    }

    pub fn space(&self) -> &WatchedSpace {
        self.store.space()
    }

    pub fn blocks(&self) -> &Blocks {
        &self.blocks
    }

    // Serves a request, whose reply is that of the map of objects.
    pub fn serve(&mut self, rt: &impl Abort, request: &Request) -> Result<Reply, TrialFault> {
        let reply = self.run(request)?;
        let expected = self.objects.apply(request)?;
        assert!(rt;
            reply == expected,
            "{request:?}: {reply:?}, and not {expected:?}"
        );
        Ok(reply)
    }

    // Does the operations of a request. Where one of them is refused, all is as before.
    pub fn run(&mut self, request: &Request) -> Result<Reply, TrialFault> {
        let first = self.space().changed().len();
        let mut items = Items::new(self.alloc);
        let mut number = 0u32;
        for op in request.ops() {
            number = number.saturating_add(1);
            match self.store.exec(op) {
                Ok(item) => items.push(item)?,
                Err(TrialFault::Refused(why)) => {
                    self.take_back(first)?;
                    return Ok(Reply::Refused { op: number, why });
                }
                Err(fault) => return Err(fault),
            }
        }
        self.keep(first)?;
        Ok(Reply::Done(items))
    }

    // The addresses that were changed, but for the first of them.
    fn changed_from(&self, first: usize) -> Result<Vec<Laddr>, TrialFault> {
        let mut changed = Vec::new(self.alloc);
        changed.extend_from_slice(self.space().changed().get(first..).unwrap_or(&[]))?;
        Ok(changed)
    }

    // Notes the blocks that were changed.
    fn keep(&mut self, first: usize) -> Result<(), TrialFault> {
        for at in self.changed_from(first)? {
            match self.store.block_at(at)? {
                Some(block) => {
                    self.blocks.insert(at.0, block)?;
                }
                None => {
                    self.blocks.remove(at.0);
                }
            }
        }
        Ok(())
    }

    // Lays the noted blocks over those that were changed.
    fn take_back(&mut self, first: usize) -> Result<(), TrialFault> {
        for at in self.changed_from(first)? {
            let block = match self.blocks.get(at.0) {
                Some(block) => Some(block.share()?),
                None => None,
            };
            self.store.place(at, block)?;
        }
        Ok(())
    }

    // The store is well formed, and holds the objects of the map.
    pub fn check(&mut self, rt: &impl Abort) -> Result<(), TrialFault> {
        assert!(rt; self.space().is_whole(), "all is noted");
        let next = self.store.next_address()?;
        let held = match objects_in(self.alloc, &self.blocks, next.0) {
            Ok(held) => held,
            Err(wrong) => {
                assert!(rt; false, "{wrong:?}");
                Vec::new(self.alloc)
            }
        };
        assert_eq!(rt;
            held.len(),
            self.count_objects()?,
            "the objects of the store"
        );
        for one in &held {
            match self.objects.get(&one.name) {
                Some(object) => assert!(rt; holds(one, object)?, "{:?}", one.name),
                None => assert!(rt; false, "{:?} is no object", one.name),
            }
        }
        Ok(())
    }

    // How many objects the map has.
    fn count_objects(&mut self) -> Result<usize, TrialFault> {
        let mut count = 0usize;
        let mut after = None;
        for _ in 0..1000 {
            let limit = 64;
            let mut ops = Ops::new(self.alloc);
            ops.push(Op::List { limit, after })?;
            let request = Request::new(ops).map_err(|_| TrialFault::BeyondLimits)?;
            let Reply::Done(items) = self.objects.apply(&request)? else {
                return Err(TrialFault::WrongAnswer);
            };
            let Some(Item::Names(names)) = items.items().first() else {
                return Err(TrialFault::WrongAnswer);
            };
            let Some(last) = names.items().last() else {
                return Ok(count);
            };
            count = count.saturating_add(names.items().len());
            after = Some(last.copy()?);
        }
        Err(TrialFault::TooMany)
    }
}

// Whether an object that a store holds is that of the map.
fn holds(held: &Held, object: &Object) -> Result<bool, TrialFault> {
    Ok(
        held.bytes.as_slice() == object.bytes()
            && are_same(&held.attributes.pairs, &object.attributes().all()?)
            && are_same(&held.omap.pairs, &object.omap().all()?),
    )
}

fn are_same(held: &[(Key, Data)], pairs: &Pairs) -> bool {
    held == pairs.items()
}
