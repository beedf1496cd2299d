//! What a script prints that is served over trees.

use crate::fault::TrialFault;
use crate::tests::twin::Twin;
use sea_base::{Duplicate, Nths};
use sea_history::Entry;
use sea_object::Request;
use sea_script::{parse, push_end, push_entry};
use std::alloc::Global;
use std::process::Abort;

// The requests of the first client of a script.
pub fn requests_of(alloc: Global, script: &str) -> Result<Vec<Request>, TrialFault> {
    let script = parse(alloc, script.as_bytes(), false).map_err(|_| TrialFault::BeyondLimits)?;
    let mut requests = Vec::new(alloc);
    if script.plan.clients() > 0 {
        for number in 1..=script.plan.count(1) {
            requests.push(script.plan.request(1, number).copy()?)?;
        }
    }
    Ok(requests)
}

// The lines of a script of one client. After each request the store is well formed, and holds the
// objects that it is to hold.
pub fn printed(rt: &impl Abort, alloc: Global, script: &str) -> Result<String, TrialFault> {
    let mut twin = Twin::new(alloc, Nths::new(alloc));
    let mut text = String::new(alloc);
    let mut number = 0u32;
    for request in &requests_of(alloc, script)? {
        number = number.saturating_add(1);
        let reply = twin.serve(rt, request)?;
        twin.check(rt)?;
        let client = 1;
        let entry = Entry {
            client,
            number,
            reply,
        };
        push_entry(&mut text, &entry)?;
    }
    push_end(&mut text, number, 0)?;
    Ok(text)
}
