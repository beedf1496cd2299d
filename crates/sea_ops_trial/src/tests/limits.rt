//! An omap with as many keys as it may have.

use crate::fault::TrialFault;
use crate::tests::texts::requests_of;
use crate::tests::twin::Twin;
use sea_base::Nths;
use sea_object::{Reply, Why};
use std::alloc::{AllocError, Global};
use std::fmt::Write;

// What is asked of an object with 10,000 keys, and whether it is done.
const LAST: &[(&str, bool)] = &[
    ("omap_setkeys a new x", false),
    ("omap_setkeys a k00007 x42 ; omap_get a k00007", true),
    ("omap_rmkeys a k00007 ; omap_setkeys a new x", true),
];

// A script that makes an object with 10,000 keys, 16 in a request, and asks for more of it.
fn script(alloc: Global) -> Result<String, AllocError> {
    let mut script = String::new(alloc);
    script.push_str("1 touch a\n")?;
    for number in 0..10_000u32 {
        if number % 16 == 0 {
            script.push_str("1 omap_setkeys a")?;
        }
        write!(script, " k{number:05} x41")?;
        if number % 16 == 15 {
            script.push('\n')?;
        }
    }
    for (last, _) in LAST {
        write!(script, "1 {last}\n")?;
    }
    Ok(script)
}

#[test]
fn an_omap_of_10_000_keys_takes_old_ones_alone(rt: HostRuntime) -> Result<(), TrialFault> {
    let mut twin = Twin::new(rt.alloc(), Nths::new(rt.alloc()));
    let script = script(rt.alloc())?;
    let mut replies = Vec::new(rt.alloc());
    for request in &requests_of(rt.alloc(), script.as_str())? {
        replies.push(twin.serve(&rt, request)?)?;
    }
    twin.check(&rt)?;
    for ((last, done), reply) in LAST.iter().zip(replies.iter().skip(626)) {
        let full = Reply::Refused {
            op: 1,
            why: Why::OmapFull,
        };
        assert_eq!(rt; *reply != full, *done, "{last}");
    }
    assert_eq!(rt; replies.len(), 629);
    Ok(())
}
