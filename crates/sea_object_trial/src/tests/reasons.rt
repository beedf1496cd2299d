//! Each reason for which a script is refused, at its edge.

use crate::tests::texts::printed;
use std::alloc::Global;
use std::process::Abort;
use std::test::Fail;

const TAKEN: &[&str] = &[
    "",
    "#",
    "# \t",
    "1 write a 16777215 x00",
    "1 zero a 0 262144",
    "1 truncate a 16777216",
    "1 omap_setkeys a k x00 m x",
    "1 omap_rmkeys a k m n",
    "1 omap_rmkeyrange a k m 32",
    "1 read a 16777216 65536",
    "1 omap_list a 64",
    "16 omap_list a 1 k",
    "1 list 64",
    "1 list 1 a ; touch %00%20%25%3b%7f",
    "1 touch aaaaaaaaaaaaaaaaaaaaaaaaaaaaaaaaaaaaaaaaaaaaaaaaaaaaaaaaaaaaaaaa",
    "1 remove a ; remove a ; remove a ; remove a",
    "1 omap_rmkeyrange a k m 24 ; omap_clear a",
    "1 stat a ; stat a ; stat a ; stat a ; stat a ; stat a ; stat a ; stat a ; stat a ; stat a \
     ; stat a ; stat a ; stat a ; stat a ; stat a ; stat a",
    "schedule",
    "1 touch a\nschedule\n\n# a\n1 16 sync trim\npick move release\n",
];

const TEXTS: &[(&str, &str)] = &[
    (" ", "1 BadText"),
    (" # a", "1 BadText"),
    ("1 touch  a", "1 BadText"),
    ("1 touch a ", "1 BadText"),
    ("1 touch \t", "1 BadText"),
    ("1 touch \u{1f}", "1 BadText"),
    ("1 touch \u{7f}", "1 BadText"),
    ("1 touch \u{ff}", "1 BadText"),
    ("1 touch a\r\n", "1 BadText"),
    ("  touch a", "1 BadText"),
    ("schedule ", "1 BadText"),
    ("schedule\nsync  trim", "2 BadText"),
    ("schedule\nschedule", "2 BadEvent"),
    ("schedule\n1 touch a", "2 BadEvent"),
    ("schedule\n0", "2 BadEvent"),
    ("schedule\nsync 17", "2 BadEvent"),
    ("schedule\nsync;", "2 BadEvent"),
    ("schedule now", "1 BadClient"),
    ("0 touch a", "1 BadClient"),
    ("17 touch a", "1 BadClient"),
    ("01 touch a", "1 BadClient"),
    ("touch a", "1 BadClient"),
    ("#\n\n1 touch a\n0 a", "4 BadClient"),
];

const OPERATIONS: &[(&str, &str)] = &[
    ("1", "1 BadOp"),
    ("1 ;", "1 BadOp"),
    ("1 touch a ;", "1 BadOp"),
    ("1 ; touch a", "1 BadOp"),
    ("1 touch", "1 BadOp"),
    ("1 touch a b", "1 BadOp"),
    ("1 touches a", "1 BadOp"),
    ("1 Touch a", "1 BadOp"),
    ("1 write a 0", "1 BadOp"),
    ("1 write a 0 x00 x00", "1 BadOp"),
    ("1 zero a 0", "1 BadOp"),
    ("1 zero a 0 1 2", "1 BadOp"),
    ("1 truncate a", "1 BadOp"),
    ("1 truncate a 0 1", "1 BadOp"),
    ("1 remove", "1 BadOp"),
    ("1 remove a b", "1 BadOp"),
    ("1 setattr a k", "1 BadOp"),
    ("1 setattr a k x m", "1 BadOp"),
    ("1 rmattr a", "1 BadOp"),
    ("1 rmattr a k m", "1 BadOp"),
    ("1 rmattrs", "1 BadOp"),
    ("1 rmattrs a k", "1 BadOp"),
    ("1 omap_setkeys a", "1 BadOp"),
    ("1 omap_setkeys a k", "1 BadOp"),
    ("1 omap_setkeys a k x m", "1 BadOp"),
    ("1 omap_rmkeys a", "1 BadOp"),
    ("1 omap_rmkeyrange a k m", "1 BadOp"),
    ("1 omap_rmkeyrange a k m 1 2", "1 BadOp"),
    ("1 omap_clear", "1 BadOp"),
    ("1 omap_clear a k", "1 BadOp"),
    ("1 read a 0", "1 BadOp"),
    ("1 read a 0 5 6", "1 BadOp"),
    ("1 stat", "1 BadOp"),
    ("1 stat a b", "1 BadOp"),
    ("1 getattr a", "1 BadOp"),
    ("1 getattr a k m", "1 BadOp"),
    ("1 getattrs", "1 BadOp"),
    ("1 getattrs a k", "1 BadOp"),
    ("1 omap_get a", "1 BadOp"),
    ("1 omap_get a k m", "1 BadOp"),
    ("1 omap_list a", "1 BadOp"),
    ("1 omap_list a 1 k m", "1 BadOp"),
    ("1 list", "1 BadOp"),
    ("1 list 1 a b", "1 BadOp"),
    ("1 touch a ; touch ; touch %41", "1 BadOp"),
];

const WORDS: &[(&str, &str)] = &[
    ("1 touch %41", "1 BadName"),
    ("1 touch %2", "1 BadName"),
    ("1 touch %2G", "1 BadName"),
    ("1 touch %3B", "1 BadName"),
    ("1 touch a;b", "1 BadName"),
    (
        "1 touch aaaaaaaaaaaaaaaaaaaaaaaaaaaaaaaaaaaaaaaaaaaaaaaaaaaaaaaaaaaaaaaaa",
        "1 BadName",
    ),
    ("1 touch %g0", "1 BadName"),
    ("1 touch %7e", "1 BadName"),
    ("1 write %2 00 x0", "1 BadName"),
    ("1 setattr a %41 0", "1 BadName"),
    ("1 omap_setkeys a k x %41 0", "1 BadName"),
    ("1 omap_rmkeys a k m %41", "1 BadName"),
    ("1 omap_rmkeyrange a k %41 00", "1 BadName"),
    ("1 omap_list a 1 %41", "1 BadName"),
    ("1 list 1 %41", "1 BadName"),
    ("1 touch %41 ; touch", "1 BadName"),
    ("1 read a 00 5", "1 BadNumber"),
    ("1 read a 0 1234567890", "1 BadNumber"),
    ("1 read a 0 -1", "1 BadNumber"),
    ("1 read a 0 +1", "1 BadNumber"),
    ("1 omap_list a 00 %41", "1 BadNumber"),
    ("1 write a 00 x0", "1 BadNumber"),
    ("1 list 1a", "1 BadNumber"),
    ("1 write a 0 x0", "1 BadHex"),
    ("1 write a 0 xAB", "1 BadHex"),
    ("1 write a 0 x0g", "1 BadHex"),
    ("1 write a 0 X00", "1 BadHex"),
    ("1 write a 0 00", "1 BadHex"),
    ("1 omap_setkeys a k x m 00", "1 BadHex"),
];

const LIMITS: &[(&str, &str)] = &[
    (
        "1 stat a ; stat a ; stat a ; stat a ; stat a ; stat a ; stat a ; stat a ; stat a ; stat a \
         ; stat a ; stat a ; stat a ; stat a ; stat a ; stat a ; list 65",
        "1 TooManyOps",
    ),
    ("1 write a 16777215 x4142", "1 BadRange"),
    ("1 write a 0 x", "1 BadRange"),
    ("1 zero a 0 0", "1 BadRange"),
    ("1 zero a 16777216 1", "1 BadRange"),
    ("1 truncate a 16777217", "1 BadRange"),
    ("1 read a 0 65537", "1 BadRange"),
    ("1 read a 0 0", "1 BadRange"),
    ("1 read a 16777217 1", "1 BadRange"),
    ("1 read a 999999999 1", "1 BadRange"),
    ("1 zero a 999999999 999999999", "1 BadRange"),
    ("1 omap_list a 0", "1 BadRange"),
    ("1 omap_list a 65", "1 BadRange"),
    ("1 list 0", "1 BadRange"),
    ("1 list 65", "1 BadRange"),
    ("1 omap_rmkeyrange a k m 0", "1 BadRange"),
    ("1 omap_rmkeyrange a k m 33", "1 BadRange"),
    ("1 zero a 0 266240 ; list 0", "1 BadRange"),
    ("1 zero a 1 262144", "1 TooManyBlocks"),
    ("1 zero a 0 262144 ; truncate a 0", "1 TooManyBlocks"),
    ("1 zero a 0 262144 ; write a 0 x00", "1 TooManyBlocks"),
    (
        "1 omap_rmkeyrange a k m 32 ; zero a 0 262145",
        "1 TooManyBlocks",
    ),
    (
        "1 remove a ; rmattrs a ; omap_clear a ; truncate a 0 ; touch a",
        "1 TooManyKeys",
    ),
    ("1 omap_rmkeyrange a k m 32 ; rmattr a k", "1 TooManyKeys"),
];

#[test]
fn lines_at_their_limits_are_taken(rt: HostRuntime) -> Result<(), Fail> {
    for script in TAKEN {
        let text = printed(rt.alloc(), *script)?;
        assert!(rt; !text.as_str().starts_with("script"), "{script}");
    }
    Ok(())
}

#[test]
fn lines_that_are_no_text_or_no_event(rt: HostRuntime) -> Result<(), Fail> {
    check(&rt, rt.alloc(), TEXTS)
}

#[test]
fn lines_with_no_operation(rt: HostRuntime) -> Result<(), Fail> {
    check(&rt, rt.alloc(), OPERATIONS)
}

#[test]
fn words_of_another_kind(rt: HostRuntime) -> Result<(), Fail> {
    check(&rt, rt.alloc(), WORDS)
}

#[test]
fn requests_beyond_their_limits(rt: HostRuntime) -> Result<(), Fail> {
    check(&rt, rt.alloc(), LIMITS)
}

// Each script is refused at this line for this reason.
fn check(rt: &impl Abort, alloc: Global, rows: &[(&str, &str)]) -> Result<(), Fail> {
    for (script, refusal) in rows {
        let expected = format!(in alloc; "script {refusal}\n")?;
        let text = printed(alloc, *script)?;
        assert_eq!(rt; text.as_str(), expected.as_str(), "{script}");
    }
    Ok(())
}
