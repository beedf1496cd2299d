//! A trial of trees of physical nodes: it merges runs into a tree in memory, and looks keys up.
#![tactic(auto)]

mod blocks;
mod fault;
mod map_tree;
mod trial;

use fault::TrialFault;
use std::env;
use std::process::ExitCode;
use trial::{Counts, run_trial};

#[cfg(test)]
mod tests;

fn main(rt: HostRuntime) -> ExitCode {
    match run(&rt) {
        Ok(()) => ExitCode::SUCCESS,
        Err(fault) => {
            let _ = eprintln!(rt; "sea_map_trial: {fault}");
            ExitCode::from(fault.status())
        }
    }
}

// Runs the trial that the words ask for, and prints what it counted.
fn run(rt: &HostRuntime) -> Result<(), TrialFault> {
    let report = run_trial(rt.alloc(), counts(rt)?)?;
    println!(rt; "{report}")?;
    Ok(())
}

// The three numbers behind the program's name.
fn counts(rt: &HostRuntime) -> Result<Counts, TrialFault> {
    let mut words = env::args(rt)?.skip(1);
    let (Some(runs), Some(lookups)) = (words.next(), words.next()) else {
        return Err(TrialFault::Usage);
    };
    let (Some(sums), None) = (words.next(), words.next()) else {
        return Err(TrialFault::Usage);
    };
    Ok(Counts {
        runs: number(runs.as_str())?,
        lookups: number(lookups.as_str())?,
        sums: number(sums.as_str())?,
    })
}

fn number(word: &str) -> Result<u32, TrialFault> {
    word.parse().map_err(|_| TrialFault::Usage)
}
