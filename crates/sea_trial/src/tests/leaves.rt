use super::node_block;
use crate::fault::TrialFault;
use sea_base::{Block, Data, Key, Laddr, MapSpace, Nths, Space, SpaceFault};
use sea_tree::{Checked, TreeFault, check, drop_all, get, range};
use std::alloc::Global;
use std::test::Fail;

// A leaf of one pair, whose value is 1,020 bytes of 7.
fn leaf_of(alloc: Global, key: u8) -> Result<Block, TrialFault> {
    let mut entry = Vec::new(alloc);
    entry.extend_from_slice(&[1, 3, 252, key])?;
    entry.resize(1024, 7)?;
    node_block(alloc, 0, &entry)
}

// The keys' first bytes of the pairs above a bound, each in 8 bits.
fn keys_above(
    alloc: Global,
    space: &mut MapSpace,
    root: Laddr,
    after: Option<&Key>,
    limit: u32,
) -> Result<Vec<u8>, Fail> {
    let mut keys = Vec::new(alloc);
    for (key, _) in range(alloc, space, root, after, limit)?.items() {
        keys.extend_from_slice(key.bytes())?;
    }
    Ok(keys)
}

#[test]
fn a_leaf_tells_its_pairs(rt: HostRuntime) -> Result<(), Fail> {
    let alloc = rt.alloc();
    let mut space = MapSpace::new(alloc, Nths::new(alloc));
    let root = space.alloc(1)?;
    let key = Key::new(alloc, b"b")?;
    assert!(rt; get(&mut space, root, &key)?.is_none());
    let entries = [1, 0, 1, b'a', 7, 1, 0, 1, b'b', 8, 1, 0, 0, b'c'];
    space.put(root, node_block(alloc, 0, &entries)?)?;
    assert_eq!(rt; get(&mut space, root, &key)?, Some(Data::new(alloc, &[8])?));
    assert_eq!(rt;
        keys_above(alloc, &mut space, root, None, 9)?.as_slice(),
        b"abc".as_slice()
    );
    assert_eq!(rt;
        keys_above(alloc, &mut space, root, Some(&key), 9)?.as_slice(),
        b"c".as_slice()
    );
    assert_eq!(rt;
        keys_above(alloc, &mut space, root, None, 0)?.as_slice(),
        b"".as_slice()
    );
    Ok(())
}

#[test]
fn a_range_reads_no_more_leaves_than_it_needs(rt: HostRuntime) -> Result<(), Fail> {
    let alloc = rt.alloc();
    let mut space = MapSpace::new(alloc, Nths::new(alloc));
    let root = space.alloc(3)?;
    let children = [
        1, 0, 8, 0, 0, 0, 0, 0, 0, 0, 0, 3, 1, 0, 8, b'm', 0, 0, 0, 0, 0, 0, 0, 4,
    ];
    space.put(root, node_block(alloc, 1, &children)?)?;
    space.put(Laddr(3), leaf_of(alloc, b'a')?)?;
    space.put(Laddr(4), leaf_of(alloc, b'z')?)?;
    assert_eq!(rt;
        keys_above(alloc, &mut space, root, None, 2)?.as_slice(),
        b"az".as_slice()
    );
    space.drop_at(Laddr(4))?;
    assert_eq!(rt;
        keys_above(alloc, &mut space, root, None, 1)?.as_slice(),
        b"a".as_slice()
    );
    let broken = range(alloc, &mut space, root, None, 2);
    assert!(rt; matches!(broken, Err(TreeFault::Broken { at: Laddr(4) })));
    Ok(())
}

#[test]
fn a_failed_get_is_answered(rt: HostRuntime) -> Result<(), Fail> {
    let alloc = rt.alloc();
    let mut fails = Nths::new(alloc);
    fails.push(1)?;
    let mut space = MapSpace::new(alloc, fails);
    let root = space.alloc(1)?;
    let key = Key::new(alloc, b"a")?;
    let failed = get(&mut space, root, &key);
    assert_eq!(rt; failed, Err(TreeFault::Space(SpaceFault::DeviceFault)));
    Ok(())
}

// A space with a tree of a root at 2 and two leaves at 3 and 4. The gets listed will fail.
fn two_leaves(alloc: Global, fails: Nths) -> Result<MapSpace, Fail> {
    let mut space = MapSpace::new(alloc, fails);
    let root = space.alloc(3)?;
    let children = [
        1, 0, 8, 0, 0, 0, 0, 0, 0, 0, 0, 3, 1, 0, 8, b'm', 0, 0, 0, 0, 0, 0, 0, 4,
    ];
    space.put(root, node_block(alloc, 1, &children)?)?;
    space.put(Laddr(3), leaf_of(alloc, b'a')?)?;
    space.put(Laddr(4), leaf_of(alloc, b'z')?)?;
    Ok(space)
}

#[test]
fn a_tree_is_counted_and_dropped(rt: HostRuntime) -> Result<(), Fail> {
    let alloc = rt.alloc();
    let mut space = two_leaves(alloc, Nths::new(alloc))?;
    let whole = check(alloc, &mut space, Laddr(2))?;
    assert_eq!(rt; whole, Checked { pairs: 2, nodes: 3 });
    drop_all(alloc, &mut space, Laddr(2))?;
    let empty = check(alloc, &mut space, Laddr(2))?;
    assert_eq!(rt; empty, Checked { pairs: 0, nodes: 0 });
    for at in 2..5 {
        assert!(rt; space.get(Laddr(at))?.is_none());
    }
    Ok(())
}

#[test]
fn the_first_break_is_told(rt: HostRuntime) -> Result<(), Fail> {
    let alloc = rt.alloc();
    let mut space = two_leaves(alloc, Nths::new(alloc))?;
    space.put(Laddr(4), leaf_of(alloc, b'b')?)?;
    let below = check(alloc, &mut space, Laddr(2));
    assert_eq!(rt; below, Err(TreeFault::Broken { at: Laddr(4) }));
    space.drop_at(Laddr(3))?;
    let missing = drop_all(alloc, &mut space, Laddr(2));
    assert_eq!(rt; missing, Err(TreeFault::Broken { at: Laddr(3) }));
    Ok(())
}

#[test]
fn a_walk_answers_a_failed_get(rt: HostRuntime) -> Result<(), Fail> {
    let alloc = rt.alloc();
    let mut fails = Nths::new(alloc);
    fails.push(2)?;
    let mut space = two_leaves(alloc, fails)?;
    let failed = check(alloc, &mut space, Laddr(2));
    assert_eq!(rt; failed, Err(TreeFault::Space(SpaceFault::DeviceFault)));
    Ok(())
}
