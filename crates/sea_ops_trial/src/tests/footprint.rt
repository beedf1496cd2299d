//! Which addresses an operation reads.

use crate::fault::TrialFault;
use crate::tests::texts::requests_of;
use crate::tests::twin::Twin;
use sea_base::Nths;
use sea_formed::read_tree;
use sea_onode::read_onode;
use std::alloc::Global;
use std::process::Abort;

const BEFORE: &str =
    "1 write a 0 x4142 ; write b 0 x43 ; setattr b k x01 ; setattr a k x02 ; omap_setkeys a o x03\n";

const OPERATIONS: &[&str] = &[
    "touch a",
    "write a 1 x43",
    "zero a 1 4097",
    "truncate a 9",
    "remove a",
    "setattr a j x",
    "rmattr a k",
    "rmattrs a",
    "omap_setkeys a k x",
    "omap_rmkeys a o",
    "omap_rmkeyrange a k z 9",
    "omap_clear a",
    "read a 0 9",
    "stat a",
    "getattr a k",
    "getattrs a",
    "omap_get a k",
    "omap_list a 9",
];

// The first address of an object.
fn base_of(alloc: Global, twin: &Twin, name: &[u8]) -> Result<u64, TrialFault> {
    let tree = read_tree(alloc, twin.blocks(), 1).map_err(|_| TrialFault::BadName)?;
    for (key, value) in &tree.pairs {
        if key.bytes() == name {
            let onode = read_onode(value.bytes()).ok_or(TrialFault::BadName)?;
            return Ok(onode.base.0);
        }
    }
    Err(TrialFault::BadName)
}

// Whether an operation on `a` reads and changes no address of `b`.
fn leaves_others(rt: &impl Abort, alloc: Global, operation: &str) -> Result<bool, TrialFault> {
    let script = format!(in alloc; "{BEFORE}1 {operation}\n")?;
    let requests = requests_of(alloc, script.as_str())?;
    let [before, last] = requests.as_slice() else {
        return Err(TrialFault::BeyondLimits);
    };
    let mut twin = Twin::new(alloc, Nths::new(alloc));
    twin.serve(rt, before)?;
    let base = base_of(alloc, &twin, b"b")?;
    let (gets, changed) = (twin.space().gets().len(), twin.space().changed().len());
    twin.serve(rt, last)?;
    let space = twin.space();
    assert!(rt; space.gets().len() > gets, "{operation}");
    let mut noted = space
        .gets()
        .iter()
        .skip(gets)
        .chain(space.changed().iter().skip(changed));
    Ok(noted.all(|at| at.0 < base || at.0 >= base.saturating_add(4098)))
}

#[test]
fn an_operation_reads_nothing_of_another_object(rt: HostRuntime) -> Result<(), TrialFault> {
    for operation in OPERATIONS {
        assert!(rt; leaves_others(&rt, rt.alloc(), operation)?, "{operation}");
    }
    Ok(())
}
