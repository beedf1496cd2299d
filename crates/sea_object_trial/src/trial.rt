//! The trial itself.

use crate::fault::TrialFault;
use crate::serving::{serve, text_of};
use sea_base::NoMemory;
use sea_history::Plan;
use sea_object::Objects;
use sea_script::parse;
use std::alloc::Global;
use std::fmt;

/// What is done over and over.
#[derive(Clone, Copy, Debug, PartialEq, Eq)]
pub enum Work {
    /// The script is parsed.
    Parse,
    /// The history of its requests is rendered.
    Render,
    /// The last request of its last client is applied once more.
    Apply,
}

/// What a trial counted.
#[derive(Clone, Copy, Debug, PartialEq, Eq)]
pub struct Report {
    requests: usize,
    times: u32,
    bytes: usize,
}

impl fmt::Display for Report {
    fn fmt<W: fmt::Write>(&self, f: &mut fmt::Formatter<W>) -> fmt::Result {
        let Report {
            requests,
            times,
            bytes,
        } = *self;
        write!(f, "requests {requests} times {times} bytes {bytes}")
    }
}

/// Serves a script, and does the work so many times.
pub fn run_trial(
    alloc: Global,
    work: Work,
    input: &[u8],
    times: u32,
) -> Result<Report, TrialFault> {
    let script = parse(alloc, input, true)?;
    let mut objects = Objects::new(alloc);
    let history = serve(alloc, &mut objects, &script.plan)?;
    let mut report = Report {
        requests: history.entries().len(),
        times,
        bytes: 0,
    };
    for _ in 0..times {
        let bytes = match work {
            Work::Parse => parsed(alloc, input)?,
            Work::Render => text_of(alloc, &history)?.len(),
            Work::Apply => applied(&mut objects, &script.plan)?,
        };
        report.bytes = report.bytes.saturating_add(bytes);
    }
    Ok(report)
}

// Parses the input, and tells its length.
fn parsed(alloc: Global, input: &[u8]) -> Result<usize, TrialFault> {
    parse(alloc, input, true)?;
    Ok(input.len())
}

// Applies the last request of the last client, if it has one.
fn applied(objects: &mut Objects, plan: &Plan) -> Result<usize, NoMemory> {
    let client = plan.clients();
    if client > 0 && plan.count(client) > 0 {
        objects.apply(plan.request(client, plan.count(client)))?;
    }
    Ok(0)
}
