//! Scripts, and what they print, worked out by hand.

use crate::tests::texts::printed;
use std::test::Fail;

const ROWS: &[(&str, &str)] = &[
    ("", "end 0 0\n"),
    (
        "1 write a 0 x68656c6c6f ; read a 0 5",
        "1 1 done - x68656c6c6f\nend 1 0\n",
    ),
    // A byte at the very end, and a hole before it.
    (
        "1 write a 16777215 x41 ; read a 16777214 2 ; stat a",
        "1 1 done - x0041 n16777216\nend 1 0\n",
    ),
    // A write past the limit.
    ("1 write a 16777215 x4142", "script 1 BadRange\n"),
    // A refused request changes nothing.
    (
        "1 write a 0 x41 ; remove b\n1 stat a",
        "1 1 refused 2 NoObject\n1 2 done none\nend 2 0\n",
    ),
    // A request beyond its limits.
    ("1 zero a 0 266240", "script 1 TooManyBlocks\n"),
    (
        "1 remove a ; remove a ; remove a ; remove a ; remove a",
        "script 1 TooManyKeys\n",
    ),
    (
        "1 touch a ; touch a ; touch a ; touch a ; touch a ; touch a ; touch a ; touch a ; touch a \
         ; touch a ; touch a ; touch a ; touch a ; touch a ; touch a ; touch a ; touch a",
        "script 1 TooManyOps\n",
    ),
    // Bytes past a cut end come back as zeros.
    (
        "1 write a 0 x4142434445 ; truncate a 2 ; truncate a 4 ; read a 0 9",
        "1 1 done - - - x41420000\nend 1 0\n",
    ),
    // Zeros within and past the end.
    (
        "1 write a 0 x414243 ; zero a 1 3 ; read a 0 9 ; stat a",
        "1 1 done - - x41000000 n4\nend 1 0\n",
    ),
    // Attributes.
    (
        "1 touch a ; setattr a k x01 ; setattr a j x ; getattrs a ; rmattr a k ; getattr a k \
         ; getattr a j ; rmattrs a ; getattrs a",
        "1 1 done - - - p2 j x k x01 - none x - p0\nend 1 0\n",
    ),
    // Names of objects.
    (
        "1 touch b ; touch a%20b ; list 64 ; list 1 a%20b",
        "1 1 done - - l2 a%20b b l1 b\nend 1 0\n",
    ),
    // Each client's requests have numbers of their own.
    (
        "2 touch a\n1 stat a ; touch b\n2 list 64",
        "1 1 done none -\n2 1 done -\n2 2 done l2 a b\nend 3 0\n",
    ),
    ("1 touch a\nschedule", "1 1 done -\nend 1 0\n"),
];

#[test]
fn scripts_print_these_texts(rt: HostRuntime) -> Result<(), Fail> {
    for (script, expected) in ROWS {
        let text = printed(rt.alloc(), *script)?;
        assert_eq!(rt; text.as_str(), *expected, "{script}");
    }
    Ok(())
}
