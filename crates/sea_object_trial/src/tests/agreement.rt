//! Random requests, answered by the plain server and by these crates.

use crate::tests::dice::Dice;
use crate::tests::plain::serve_plainly;
use crate::tests::random::operations;
use crate::tests::texts::printed;
use std::alloc::{AllocError, Global};
use std::fmt::Write;
use std::test::Fail;

// A script, and what the plain server prints of it.
#[derive(Drop)]
struct Served {
    script: String,
    expected: String,
}

// So many random requests.
fn random_served(alloc: Global, seed: u64, count: u32) -> Result<Served, AllocError> {
    let mut dice = Dice::new(seed);
    let mut script = String::new(alloc);
    let mut expected = String::new(alloc);
    let mut objects = Vec::new(alloc);
    for number in 1..=count {
        let operations = operations(alloc, &mut dice)?;
        push_line(&mut script, &operations)?;
        write!(expected, "1 {number} ")?;
        serve_plainly(alloc, &mut objects, &operations, &mut expected)?;
    }
    write!(expected, "end {count} 0\n")?;
    Ok(Served { script, expected })
}

fn push_line(script: &mut String, operations: &[String]) -> Result<(), AllocError> {
    let mut before = "1 ";
    for operation in operations {
        script.push_str(before)?;
        script.push_str(operation.as_str())?;
        before = " ; ";
    }
    script.push('\n')
}

#[test]
fn random_requests_are_answered_as_by_the_plain_server(rt: HostRuntime) -> Result<(), Fail> {
    for seed in 1..=4 {
        let Served { script, expected } = random_served(rt.alloc(), seed, 500)?;
        let found = printed(rt.alloc(), script.as_str())?;
        assert_eq!(rt; found.as_str(), expected.as_str(), "seed {seed}");
    }
    Ok(())
}
