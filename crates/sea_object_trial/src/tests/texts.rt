//! What a script prints.

use crate::fault::TrialFault;
use crate::serving::{serve, text_of};
use sea_object::Objects;
use sea_script::{ScriptFault, parse};
use std::alloc::{AllocError, Global};
use std::fmt::Write;

/// The lines of a script that is served on no objects, or the line of its refusal.
pub fn printed(alloc: Global, script: &str) -> Result<String, TrialFault> {
    printed_of(alloc, script.as_bytes(), true)
}

/// The same of an input in which a schedule is wanted or not.
pub fn printed_of(alloc: Global, input: &[u8], scheduled: bool) -> Result<String, TrialFault> {
    match parse(alloc, input, scheduled) {
        Ok(script) => {
            let history = serve(alloc, &mut Objects::new(alloc), &script.plan)?;
            Ok(text_of(alloc, &history)?)
        }
        Err(ScriptFault::Refused { line, why }) => {
            let mut text = String::new(alloc);
            write!(text, "script {line} {why:?}\n")?;
            Ok(text)
        }
        Err(fault) => Err(fault.into()),
    }
}

/// A line so many times, and these behind it.
pub fn repeated(alloc: Global, count: u32, line: &str, behind: &str) -> Result<String, AllocError> {
    let mut script = String::new(alloc);
    for _ in 0..count {
        script.push_str(line)?;
    }
    script.push_str(behind)?;
    Ok(script)
}
