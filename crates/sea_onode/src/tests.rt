//! Onodes saved and found over a space in memory.
ghost use Rattle.std.specs.Prelude.{◌+◌, ◌*◌, ◌^◌, ◌≤◌};
ghost use Rattle.sea_base.specs.MapSpace.{seen_of};

use crate::{erase, find, names, new_onode, save};
use sea_base::{Laddr, MapSpace, Name, NoMemory, Nths, SpaceFault};
use sea_object::Onode;
use sea_tree::TreeFault;
use std::alloc::Global;
use std::process::Abort;
use std::test::Fail;

// An onode tree in a space in memory.
#[derive(Drop)]
struct OnodeTree {
    alloc: Global,
    space: MapSpace,
    calls: u32,
    ghost low: { (seen_of space).next ≤ 2 + calls * 2 ^ 20 },
}

impl OnodeTree {
    // An empty tree, in a space in which the get of this number fails.
    fn new(alloc: Global, fails: u64) -> Result<OnodeTree, NoMemory> {
        let mut listed = Nths::new(alloc);
        listed.push(fails)?;
        Ok(OnodeTree {
            alloc,
            space: MapSpace::new(alloc, listed),
            calls: 0,
        })
    }

    fn save(&mut self, name: &Name, onode: &Onode) -> Result<(), TreeFault> {
        self.calls = self.calls.checked_add(1).ok_or(NoMemory)?;
        save(self.alloc, &mut self.space, name, onode)
    }

    fn erase(&mut self, name: &Name) -> Result<(), TreeFault> {
        self.calls = self.calls.checked_add(1).ok_or(NoMemory)?;
        erase(self.alloc, &mut self.space, name)
    }

    fn find(&mut self, name: &Name) -> Result<Option<Onode>, TreeFault> {
        find(&mut self.space, name)
    }

    // How many names stand behind one.
    fn behind(&mut self, after: &Name) -> Result<usize, TreeFault> {
        let listed = names(self.alloc, &mut self.space, Some(after), 9)?;
        Ok(listed.items().len())
    }
}

fn name(alloc: Global, bytes: &[u8]) -> Result<Name, NoMemory> {
    Name::new(alloc, bytes).map_err(|_| NoMemory)
}

#[test]
fn onodes_are_saved_listed_and_erased(rt: HostRuntime) -> Result<(), Fail> {
    let alloc = rt.alloc();
    let mut tree = OnodeTree::new(alloc, 0)?;
    let a = name(alloc, b"a")?;
    let b = name(alloc, b"b")?;
    let onode = new_onode(Laddr(2));
    tree.save(&a, &onode)?;
    tree.save(&b, &onode)?;
    assert_eq!(rt; tree.find(&b)?, Some(onode));
    assert_eq!(rt; tree.behind(&a)?, 1);
    tree.erase(&b)?;
    assert_eq!(rt; tree.find(&b)?, None);
    Ok(())
}

#[test]
fn a_get_that_fails_is_a_device_fault(rt: HostRuntime) -> Result<(), Fail> {
    let alloc = rt.alloc();
    let mut tree = OnodeTree::new(alloc, 1)?;
    let a = name(alloc, b"a")?;
    let failed = TreeFault::Space(SpaceFault::DeviceFault);
    assert_eq!(rt; tree.save(&a, &new_onode(Laddr(2))), Err(failed));
    tree.save(&a, &new_onode(Laddr(2)))?;
    Ok(())
}
