//! Values and inputs at their limits, and schedules where none is wanted.

use crate::tests::texts::{printed, printed_of, repeated};
use std::alloc::{AllocError, Global};
use std::test::Fail;

// A line with a value of so many bytes in it.
fn with_value(alloc: Global, before: &str, bytes: u32, behind: &str) -> Result<String, AllocError> {
    let digits = repeated(alloc, bytes, "5a", "")?;
    format!(in alloc; "{before} x{digits}{behind}")
}

#[test]
fn values_at_their_limit(rt: HostRuntime) -> Result<(), Fail> {
    for put in ["setattr a k", "omap_setkeys a k", "omap_setkeys a j x k"] {
        let before = format!(in rt.alloc(); "1 touch a ; {put}")?;
        let script = with_value(rt.alloc(), before.as_str(), 1_024, "")?;
        let text = printed(rt.alloc(), script.as_str())?;
        assert_eq!(rt; text.as_str(), "1 1 done - -\nend 1 0\n", "{put}");
        let script = with_value(rt.alloc(), before.as_str(), 1_025, "")?;
        let text = printed(rt.alloc(), script.as_str())?;
        assert_eq!(rt; text.as_str(), "script 1 BadValue\n", "{put}");
    }
    Ok(())
}

// What stands before and behind a value of 1,025 bytes, and why the line is refused.
const VALUES: &[(&str, &str, &str)] = &[
    ("1 setattr a k", " ; list 0", "script 1 BadValue\n"),
    ("1 list 0 ; setattr a k", "", "script 1 BadRange\n"),
    ("1 zero a 1 262144 ; setattr a k", "", "script 1 BadValue\n"),
    ("1 omap_setkeys a k", " %41 x", "script 1 BadName\n"),
    (
        "1 write a 16775191",
        " ; stat a",
        "1 1 done - n16776216\nend 1 0\n",
    ),
];

#[test]
fn a_longer_value_among_other_faults(rt: HostRuntime) -> Result<(), Fail> {
    for (before, behind, expected) in VALUES {
        let script = with_value(rt.alloc(), before, 1_025, behind)?;
        let text = printed(rt.alloc(), script.as_str())?;
        assert_eq!(rt; text.as_str(), *expected, "{before}");
    }
    Ok(())
}

const SCHEDULES: &[(&str, &str)] = &[
    ("1 touch a\nschedule\nsync", "script 2 ScheduleInRun\n"),
    ("schedule", "script 1 ScheduleInRun\n"),
    ("schedule ", "script 1 BadText\n"),
    ("schedule now", "script 1 BadClient\n"),
    ("#schedule\n1 touch schedule", "1 1 done -\nend 1 0\n"),
    ("1 touch a\nsync\nschedule", "script 2 BadClient\n"),
];

#[test]
fn a_schedule_where_none_is_wanted(rt: HostRuntime) -> Result<(), Fail> {
    for (script, expected) in SCHEDULES {
        let text = printed_of(rt.alloc(), script.as_bytes(), false)?;
        assert_eq!(rt; text.as_str(), *expected, "{script}");
    }
    Ok(())
}

#[test]
fn an_input_of_64_mib(rt: HostRuntime) -> Result<(), Fail> {
    let mut input = vec![in rt.alloc(); b'#'; 67_108_864]?;
    let text = printed_of(rt.alloc(), &input, true)?;
    assert_eq!(rt; text.as_str(), "end 0 0\n");
    input.push(b'#')?;
    let text = printed_of(rt.alloc(), &input, true)?;
    assert_eq!(rt; text.as_str(), "script 0 TooLong\n");
    Ok(())
}
