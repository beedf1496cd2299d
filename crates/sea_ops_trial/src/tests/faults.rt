//! Gets that fail.

use crate::fault::TrialFault;
use crate::tests::texts::requests_of;
use crate::tests::twin::Twin;
use sea_base::{Nths, SpaceFault};
use sea_object::{Reply, Request};
use sea_tree::TreeFault;
use std::alloc::Global;
use std::process::Abort;

const FAILED: TrialFault = TrialFault::Tree(TreeFault::Space(SpaceFault::DeviceFault));

// What stands before, and then each operation alone.
const BEFORE: &str =
    "1 write a 0 x4142 ; touch b ; setattr a k x01 ; setattr a m x02 ; omap_setkeys a o x03 q x04\n";

const OPERATIONS: &[&str] = &[
    "touch c",
    "write a 1 x43",
    "write c 4095 x4142",
    "zero a 1 4096",
    "truncate a 1",
    "remove a",
    "setattr a j x",
    "rmattr a k",
    "rmattrs a",
    "omap_setkeys a k x01 l x02",
    "omap_rmkeys a o p",
    "omap_rmkeyrange a o z 9",
    "omap_clear a",
    "read a 0 9",
    "stat a",
    "getattr a k",
    "getattrs a",
    "omap_get a k",
    "omap_list a 9",
    "list 9",
];

// Serves the requests over a space whose get of this number fails, and tells whether that get was made.
// The fault is answered.
fn fails(
    rt: &impl Abort,
    alloc: Global,
    requests: &[Request],
    nth: u64,
) -> Result<bool, TrialFault> {
    let mut gets = Nths::new(alloc);
    gets.push(nth)?;
    let mut twin = Twin::new(alloc, gets);
    for request in requests {
        match twin.run(request) {
            Ok(reply) => assert!(rt; is_done(&reply), "{reply:?}"),
            Err(fault) => {
                assert_eq!(rt; fault, FAILED, "{nth}");
                return Ok(true);
            }
        }
    }
    Ok(twin.space().gets().len() as u64 >= nth)
}

fn is_done(reply: &Reply) -> bool {
    matches!(reply, Reply::Done(_))
}

#[test]
fn a_get_that_fails_is_answered_at_each_place(rt: HostRuntime) -> Result<(), TrialFault> {
    let alloc = rt.alloc();
    for operation in OPERATIONS {
        let script = format!(in alloc; "{BEFORE}1 {operation}\n")?;
        let requests = requests_of(alloc, script.as_str())?;
        let mut nth = 1;
        for _ in 0..500 {
            if !fails(&rt, alloc, &requests, nth)? {
                break;
            }
            nth = nth.saturating_add(1);
        }
        assert!(rt; nth > 20 && nth < 500, "{operation}: {nth}");
    }
    Ok(())
}
