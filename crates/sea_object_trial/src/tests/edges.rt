//! Each row of the table of operations, on an object `a` with the bytes `x4142`, the attributes `k`
//! and `m`, and the keys `j`, `k` and `m`.

use crate::tests::texts::printed;
use std::alloc::Global;
use std::process::Abort;
use std::test::Fail;

const BEFORE: &str = "1 write a 0 x4142 ; setattr a k x01 ; setattr a m x \
    ; omap_setkeys a m x03 j x02 k x";

const BYTES: &[(&str, &str)] = &[
    ("touch a ; stat a", "done - n2"),
    ("touch b ; stat b", "done - n0"),
    ("write a 1 x43 ; read a 0 9", "done - x4143"),
    ("write a 2 x43 ; read a 0 9", "done - x414243"),
    ("write a 4 x43 ; read a 0 9", "done - x4142000043"),
    ("write b 0 x43 ; read b 0 9", "done - x43"),
    ("write b 16777215 x43 ; stat b", "done - n16777216"),
    ("zero a 1 3 ; read a 0 9", "done - x41000000"),
    ("zero a 0 1 ; read a 0 9", "done - x0042"),
    ("zero b 1 1 ; read b 0 9", "done - x0000"),
    ("zero a 16515072 262144 ; stat a", "done - n16777216"),
    ("truncate a 1 ; read a 0 9", "done - x41"),
    ("truncate a 3 ; read a 0 9", "done - x414200"),
    ("truncate a 0 ; stat a", "done - n0"),
    ("truncate a 16777216 ; stat a", "done - n16777216"),
    ("truncate b 0", "refused 1 NoObject"),
    ("read a 1 65536 ; read a 2 1", "done x42 x"),
    ("read a 16777216 1 ; read b 0 1", "done x none"),
    ("read a 0 1 ; read a 0 2", "done x41 x4142"),
    ("stat a ; stat b", "done n2 none"),
    ("remove a ; stat a ; list 64", "done - none l0"),
    (
        "remove a ; touch a ; getattrs a ; omap_list a 64",
        "done - - p0 p0",
    ),
    ("touch b ; remove b ; remove b", "refused 3 NoObject"),
    (
        "list 64 ; touch b ; list 1 ; list 64 a",
        "done l1 a - l1 a l1 b",
    ),
    (
        "touch a%00 ; touch b ; list 64 a ; list 64 a%00",
        "done - - l2 a%00 b l1 b",
    ),
    ("touch %ff ; list 64 b", "done - l1 %ff"),
];

const PAIRS: &[(&str, &str)] = &[
    ("setattr a k x05 ; getattrs a", "done - p2 k x05 m x"),
    ("setattr a a x05 ; getattrs a", "done - p3 a x05 k x01 m x"),
    ("setattr b k x", "refused 1 NoObject"),
    ("rmattr a k ; getattrs a", "done - p1 m x"),
    ("rmattr a j ; getattrs a", "done - p2 k x01 m x"),
    ("rmattr b k", "refused 1 NoObject"),
    ("rmattrs a ; getattrs a", "done - p0"),
    ("rmattrs b", "refused 1 NoObject"),
    ("getattr a k ; getattr a m ; getattr a j", "done x01 x none"),
    ("getattr b k ; getattrs b", "done none none"),
    (
        "omap_setkeys a k x07 k x08 a x ; omap_list a 64",
        "done - p4 a x j x02 k x08 m x03",
    ),
    ("omap_setkeys b k x", "refused 1 NoObject"),
    (
        "omap_rmkeys a k z ; omap_list a 64",
        "done - p2 j x02 m x03",
    ),
    ("omap_rmkeys b k", "refused 1 NoObject"),
    (
        "omap_rmkeyrange a j m 32 ; omap_list a 64",
        "done n2 p1 m x03",
    ),
    (
        "omap_rmkeyrange a a z 1 ; omap_list a 64",
        "done n1 p2 k x m x03",
    ),
    ("omap_rmkeyrange a m j 32", "done n0"),
    ("omap_rmkeyrange a j j 32", "done n0"),
    ("omap_rmkeyrange b j m 1", "refused 1 NoObject"),
    ("omap_clear a ; omap_list a 64", "done - p0"),
    ("omap_clear b", "refused 1 NoObject"),
    (
        "omap_get a j ; omap_get a k ; omap_get a z",
        "done x02 x none",
    ),
    ("omap_get b j ; omap_list b 1", "done none none"),
    (
        "omap_list a 2 ; omap_list a 64 j",
        "done p2 j x02 k x p2 k x m x03",
    ),
    ("omap_list a 1 m ; omap_list a 1 a", "done p0 p1 j x02"),
    (
        "omap_setkeys a %ff x k%00 x ; omap_list a 64 k",
        "done - p3 k%00 x m x03 %ff x",
    ),
];

#[test]
fn bytes_and_names(rt: HostRuntime) -> Result<(), Fail> {
    check(&rt, rt.alloc(), BYTES)
}

#[test]
fn attributes_and_keys(rt: HostRuntime) -> Result<(), Fail> {
    check(&rt, rt.alloc(), PAIRS)
}

// Serves the operations of each row behind the first request.
fn check(rt: &impl Abort, alloc: Global, rows: &[(&str, &str)]) -> Result<(), Fail> {
    for (operations, reply) in rows {
        let script = format!(in alloc; "{BEFORE}\n1 {operations}\n")?;
        let expected = format!(in alloc; "1 1 done - - - -\n1 2 {reply}\nend 2 0\n")?;
        let text = printed(alloc, script.as_str())?;
        assert_eq!(rt; text.as_str(), expected.as_str(), "{operations}");
    }
    Ok(())
}
