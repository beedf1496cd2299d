//! Rows whose replies were worked out by hand.

use crate::tests::texts::printed;
use std::test::Fail;

const ASKED: &[(&str, &str)] = &[
    ("1 stat a ; read a 0 5", "1 1 done none none\nend 1 0\n"),
    (
        "1 touch b ; touch a%20b ; list 64 ; list 1 a%20b",
        "1 1 done - - l2 a%20b b l1 b\nend 1 0\n",
    ),
    (
        "1 touch a ; setattr a k x01\n1 setattr a j x41 ; setattr b k x\n1 getattrs a",
        "1 1 done - -\n1 2 refused 2 NoObject\n1 3 done p1 k x01\nend 3 0\n",
    ),
];

const BYTES: &[(&str, &str)] = &[
    (
        "1 write a 0 x68656c6c6f ; read a 0 5",
        "1 1 done - x68656c6c6f\nend 1 0\n",
    ),
    (
        "1 write a 16777215 x41 ; read a 16777214 2 ; stat a",
        "1 1 done - x0041 n16777216\nend 1 0\n",
    ),
    (
        "1 write a 0 x41 ; remove b\n1 stat a",
        "1 1 refused 2 NoObject\n1 2 done none\nend 2 0\n",
    ),
    (
        "1 write a 0 x4142434445 ; truncate a 2 ; truncate a 4 ; read a 0 9",
        "1 1 done - - - x41420000\nend 1 0\n",
    ),
    (
        "1 write a 0 x414243 ; zero a 1 3 ; read a 0 9 ; stat a",
        "1 1 done - - x41000000 n4\nend 1 0\n",
    ),
];

const KEYS: &[(&str, &str)] = &[
    (
        "1 touch a ; setattr a k x01 ; setattr a j x ; getattrs a ; rmattr a k ; getattr a k ; getattr a j ; rmattrs a ; getattrs a",
        "1 1 done - - - p2 j x k x01 - none x - p0\nend 1 0\n",
    ),
    (
        "1 touch a ; omap_setkeys a k x01 j x02 k x03 ; omap_list a 64 ; omap_get a k",
        "1 1 done - - p2 j x02 k x03 x03\nend 1 0\n",
    ),
    (
        "1 touch a ; omap_setkeys a k x01 j x02\n1 omap_rmkeys a z k ; omap_list a 1\n1 omap_clear a ; omap_list a 1",
        "1 1 done - -\n1 2 done - p1 j x02\n1 3 done - p0\nend 3 0\n",
    ),
    (
        "1 touch a ; setattr a k x01 ; rmattrs a ; getattrs a\n1 omap_clear b\n1 omap_setkeys b k x",
        "1 1 done - - - p0\n1 2 refused 1 NoObject\n1 3 refused 1 NoObject\nend 3 0\n",
    ),
];

#[test]
fn rows_of_bytes(rt: HostRuntime) -> Result<(), Fail> {
    for (script, expected) in BYTES {
        let text = printed(&rt, rt.alloc(), script)?;
        assert_eq!(rt; text.as_str(), *expected, "{script}");
    }
    Ok(())
}

// Where a removed range leaves little in two leaves, they join.
#[test]
fn a_range_of_keys_goes(rt: HostRuntime) -> Result<(), Fail> {
    let alloc = rt.alloc();
    let value = "66".repeat(alloc, 1024)?;
    let v = value.as_str();
    let script = format!(in alloc;
        "1 touch a ; omap_setkeys a k1 x{v} k2 x{v} k3 x{v} k4 x{v} k5 x{v} k0 x\n\
         1 omap_rmkeyrange a k1 k3 32 ; omap_list a 64\n"
    )?;
    let expected = format!(in alloc;
        "1 1 done - -\n1 2 done n2 p4 k0 x k3 x{v} k4 x{v} k5 x{v}\nend 2 0\n"
    )?;
    let text = printed(&rt, alloc, script.as_str())?;
    assert_eq!(rt; text.as_str(), expected.as_str());
    Ok(())
}

#[test]
fn rows_of_keys(rt: HostRuntime) -> Result<(), Fail> {
    for (script, expected) in KEYS {
        let text = printed(&rt, rt.alloc(), script)?;
        assert_eq!(rt; text.as_str(), *expected, "{script}");
    }
    Ok(())
}

#[test]
fn rows_that_ask(rt: HostRuntime) -> Result<(), Fail> {
    for (script, expected) in ASKED {
        let text = printed(&rt, rt.alloc(), script)?;
        assert_eq!(rt; text.as_str(), *expected, "{script}");
    }
    Ok(())
}
