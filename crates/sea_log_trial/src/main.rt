//! A trial of what the journal writes: it spells the first blocks of a fresh image and a record of each
//! kind, reads them again, and prints what it read.
#![tactic(auto)]

mod format;
mod fresh;
mod trial;

use fresh::{first_header, fresh_super};
use sea_base::{NoMemory, sum_of};
use sea_segment::{Header, Super};
use std::io;
use std::process::ExitCode;
use thiserror::Error;
use trial::run_trial;

#[cfg(test)]
mod tests;

/// Why the trial ends early.
#[derive(Clone, Copy, Debug, Error)]
enum TrialFault {
    #[error("no memory")]
    NoMemory,
    #[error("the sink failed")]
    Sink,
}

impl From<NoMemory> for TrialFault {
    fn from(_: NoMemory) -> Self {
        TrialFault::NoMemory
    }
}

impl From<io::Error> for TrialFault {
    fn from(_: io::Error) -> Self {
        TrialFault::Sink
    }
}

fn main(rt: HostRuntime) -> ExitCode {
    match run(&rt) {
        Ok(()) => ExitCode::SUCCESS,
        Err(fault) => {
            let _ = eprintln!(rt; "sea_log_trial: {fault}");
            ExitCode::FAILURE
        }
    }
}

// Spells the superblock and the first header of a fresh image, then a record of each kind, and prints
// what they are read as.
fn run(rt: &HostRuntime) -> Result<(), TrialFault> {
    let block = fresh_super().spell(rt.alloc())?;
    if let Some(found) = Super::read(&block) {
        println!(rt; "super {} {}", found.segments, sum_of(&block).0)?;
    }
    let block = first_header().spell(rt.alloc())?;
    if let Some(found) = Header::read(&block) {
        println!(rt;
            "header {} {} {}",
            found.segment,
            found.seq,
            sum_of(&block).0
        )?;
    }
    let report = run_trial(rt.alloc())?;
    println!(rt; "{report}")?;
    Ok(())
}
