//! Splices worked out by hand.
ghost use Rattle.std.specs.Prelude.{[], ◌∷◌, codes};
ghost use Rattle.std.specs.Option.{option_copied};
ghost use Rattle.sea_base.specs.Name.{IsName};
ghost use Rattle.sea_node.specs.Entries.{edited};
ghost use Rattle.sea_node.specs.Node.{IsNode};

use super::*;
use sea_base::{Name, Pairs};
use std::process::Abort;
use std::test::Fail;

// The splice of an edit of a leaf with the entries a 12, cc and e xyz, which take 6, 5 and 7 bytes.
fn delta(alloc: Global, key: &[u8], value: Option<&[u8]>) -> Result<Delta, Fail>
    requires { IsNode 0 (edited key.now (option_copied value)
        ((codes "a", codes "12") ∷ (codes "cc", []) ∷ (codes "e", codes "xyz") ∷ [])) }
{
    let mut entries = Pairs::new(alloc);
    entries.push((Name::new(alloc, b"a")?, Data::new(alloc, b"12")?))?;
    entries.push((Name::new(alloc, b"cc")?, Data::new(alloc, b"")?))?;
    entries.push((Name::new(alloc, b"e")?, Data::new(alloc, b"xyz")?))?;
    let node = Node { level: 0, entries };
    let key = Name::new(alloc, key)?;
    let Some(value) = value else {
        return Ok(node.edit(alloc, &key, None)?);
    };
    let value = Data::new(alloc, value)?;
    Ok(node.edit(alloc, &key, Some(&value))?)
}

#[test]
fn a_key_comes_in_before_those_that_it_begins(rt: HostRuntime) -> Result<(), Fail> {
    let delta = delta(rt.alloc(), b"c", Some(b"7"))?;
    assert_eq!(rt; delta.cut, 38);
    assert_eq!(rt; delta.gone, 0);
    assert_eq!(rt; delta.put.bytes(), [1, 0, 1, b'c', b'7'].as_slice());
    Ok(())
}

#[test]
fn a_value_takes_the_place_of_another(rt: HostRuntime) -> Result<(), Fail> {
    let delta = delta(rt.alloc(), b"cc", Some(b"new"))?;
    assert_eq!(rt; delta.cut, 38);
    assert_eq!(rt; delta.gone, 5);
    assert_eq!(rt;
        delta.put.bytes(),
        [2, 0, 3, b'c', b'c', b'n', b'e', b'w'].as_slice()
    );
    Ok(())
}

#[test]
fn a_key_is_removed(rt: HostRuntime) -> Result<(), Fail> {
    let delta = delta(rt.alloc(), b"e", None)?;
    assert_eq!(rt; delta.cut, 43);
    assert_eq!(rt; delta.gone, 7);
    assert_eq!(rt; delta.put.len(), 0);
    Ok(())
}

#[test]
fn a_length_has_its_high_byte_first(rt: HostRuntime) -> Result<(), Fail> {
    let delta = delta(rt.alloc(), b"z", Some(&[b'v'; 258]))?;
    assert_eq!(rt; delta.cut, 50);
    assert_eq!(rt; delta.gone, 0);
    assert_eq!(rt; delta.put.len(), 262);
    assert!(rt; delta.put.bytes().starts_with(&[1, 1, 2, b'z', b'v']));
    Ok(())
}
