//! A splice worked out by hand.

use super::*;
use sea_base::{Name, Pairs};
use std::test::Fail;

#[test]
fn a_value_takes_the_place_of_another_in_its_block(rt: HostRuntime) -> Result<(), Fail> {
    let alloc = rt.alloc();
    let mut entries = Pairs::new(alloc);
    entries.push((Name::new(alloc, b"a")?, Data::new(alloc, b"12")?))?;
    entries.push((Name::new(alloc, b"cc")?, Data::new(alloc, b"")?))?;
    entries.push((Name::new(alloc, b"e")?, Data::new(alloc, b"xyz")?))?;
    let block = Node { level: 0, entries }.print(alloc)?;
    let key = Name::new(alloc, b"cc")?;
    let value = Data::new(alloc, b"new")?;
    let edit = Node::splice(alloc, &block, &key, Some(&value))?.ok_or("no node")?;
    assert_eq!(rt; edit.level, 0);
    assert_eq!(rt; edit.size, 21);
    assert_eq!(rt; edit.delta.cut, 38);
    assert_eq!(rt; edit.delta.gone, 5);
    assert_eq!(rt;
        edit.delta.put.bytes(),
        [2, 0, 3, b'c', b'c', b'n', b'e', b'w'].as_slice()
    );
    Ok(())
}
