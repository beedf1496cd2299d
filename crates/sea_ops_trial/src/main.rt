//! A trial of operations on objects: it puts keys into the omaps of objects in memory, gets some of
//! them, and writes over bytes.
#![tactic(auto)]

mod fault;
mod store;
mod trial;

use fault::TrialFault;
use std::env;
use std::process::ExitCode;
use trial::{Calls, run_trial};

#[cfg(test)]
mod tests;

fn main(rt: HostRuntime) -> ExitCode {
    match run(&rt) {
        Ok(()) => ExitCode::SUCCESS,
        Err(fault) => {
            let _ = eprintln!(rt; "sea_ops_trial: {fault}");
            ExitCode::from(fault.status())
        }
    }
}

// Runs the trial that the words ask for, and prints what it counted.
fn run(rt: &HostRuntime) -> Result<(), TrialFault> {
    let calls = counts(rt)?;
    let report = run_trial(rt.alloc(), calls)?;
    println!(rt; "{report}")?;
    Ok(())
}

// The three numbers behind the program's name.
fn counts(rt: &HostRuntime) -> Result<Calls, TrialFault> {
    let mut words = env::args(rt)?.skip(1);
    let (Some(sets), Some(gets), Some(writes)) = (words.next(), words.next(), words.next()) else {
        return Err(TrialFault::Usage);
    };
    if words.next().is_some() {
        return Err(TrialFault::Usage);
    }
    Ok(Calls {
        sets: number(sets.as_str())?,
        gets: number(gets.as_str())?,
        writes: number(writes.as_str())?,
    })
}

fn number(word: &str) -> Result<u32, TrialFault> {
    word.parse().map_err(|_| TrialFault::Usage)
}
