use super::node_block;
use crate::fault::TrialFault;
use sea_base::{Block, Key};
use sea_node::Node;
use std::alloc::Global;
use std::test::Fail;

// Whether the block spells no node: parsing and a look-up agree.
fn spells_none(alloc: Global, level: u8, bytes: &[u8]) -> Result<bool, Fail> {
    let block = node_block(alloc, level, bytes)?;
    let parsed = Node::parse(alloc, &block)?;
    let told = Node::look_up(&block, &Key::new(alloc, b"a")?)?;
    if parsed.is_none() != told.is_none() {
        return Err(Fail::from("one finds a node"));
    }
    Ok(parsed.is_none())
}

// An entry with a value of 300 bytes, and one with none.
#[test]
fn a_leaf_is_parsed_and_printed(rt: HostRuntime) -> Result<(), Fail> {
    let alloc = rt.alloc();
    let mut bytes = Vec::new(alloc);
    bytes.extend_from_slice(&[1, 1, 44, b'a'])?;
    bytes.resize(304, 7)?;
    bytes.extend_from_slice(&[2, 0, 0, b'a', 0])?;
    let block = node_block(alloc, 0, &bytes)?;
    let Some(node) = Node::parse(alloc, &block)? else {
        return Err(Fail::from("no node"));
    };
    let [first, second] = node.entries.items() else {
        return Err(Fail::from("not two entries"));
    };
    assert_eq!(rt; node.level, 0);
    assert_eq!(rt; first.0.bytes(), b"a".as_slice());
    assert_eq!(rt; first.1.bytes(), &bytes[4..304]);
    assert_eq!(rt; second.0.bytes(), b"a\0".as_slice());
    assert!(rt; second.1.bytes().is_empty());
    assert_eq!(rt; node.print(alloc)?.bytes(), block.bytes());
    Ok(())
}

#[test]
fn what_is_no_node_is_not_parsed(rt: HostRuntime) -> Result<(), Fail> {
    let alloc = rt.alloc();
    assert!(rt; spells_none(alloc, 0, &[])?);
    assert!(rt; !spells_none(alloc, 0, &[1, 0, 0, b'a'])?);
    assert!(rt; spells_none(alloc, 8, &[1, 0, 0, b'a'])?);
    assert!(rt; spells_none(alloc, 0, &[1, 0, 0, b'a', 0, 1])?);
    assert!(rt; spells_none(alloc, 0, &[1, 0, 0, b'b', 1, 0, 0, b'a'])?);
    assert!(rt; spells_none(alloc, 0, &[1, 0, 0, b'a', 1, 0, 0, b'a'])?);
    Ok(())
}

#[test]
fn an_inner_node_has_two_children_at_addresses(rt: HostRuntime) -> Result<(), Fail> {
    let alloc = rt.alloc();
    let one = [1, 0, 8, b'a', 0, 0, 0, 0, 0, 0, 0, 1];
    let two = [
        1, 0, 8, b'a', 0, 0, 0, 0, 0, 0, 0, 1, 1, 0, 8, b'b', 0, 0, 0, 0, 0, 0, 0, 2,
    ];
    let short = [
        1, 0, 8, b'a', 0, 0, 0, 0, 0, 0, 0, 1, 1, 0, 7, b'b', 0, 0, 0, 0, 0, 0, 2,
    ];
    assert!(rt; spells_none(alloc, 1, &one)?);
    assert!(rt; !spells_none(alloc, 1, &two)?);
    assert!(rt; spells_none(alloc, 1, &short)?);
    assert!(rt; !spells_none(alloc, 0, &short)?);
    Ok(())
}

// A leaf of two pairs, at a key: the found value's bytes and the next key's, or an x for none.
#[test]
fn a_key_is_looked_up_in_a_leaf(rt: HostRuntime) -> Result<(), Fail> {
    let alloc = rt.alloc();
    let block = node_block(alloc, 0, &[1, 0, 1, b'b', 7, 1, 0, 1, b'd', 8])?;
    for (at, value, next) in [
        (b'a', None, Some(b'b')),
        (b'b', Some(7), Some(b'd')),
        (b'c', Some(7), Some(b'd')),
        (b'd', Some(8), None),
        (b'e', Some(8), None),
    ] {
        let key = Key::new(alloc, &[at])?;
        let Some(told) = Node::look_up(&block, &key)? else {
            return Err(Fail::from("no node"));
        };
        assert_eq!(rt; told.level, 0);
        assert_eq!(rt; told.size, 10);
        assert_eq!(rt; told.first.bytes(), b"b".as_slice());
        assert_eq!(rt; told.last.bytes(), b"d".as_slice());
        assert_eq!(rt;
            told.found.map(|found| found.1.bytes().first().copied()),
            value.map(Some)
        );
        assert_eq!(rt;
            told.next.map(|next| next.bytes().first().copied()),
            next.map(Some)
        );
    }
    Ok(())
}
