//! A trial of trails: it builds an image whose segments are full of records, and scans it, hashes the
//! same blocks or spells their records so many times.
#![tactic(auto)]

mod fault;
mod format;
mod image;
mod plain;
mod trial;

use fault::TrialFault;
use std::env;
use std::process::ExitCode;
use trial::{Work, run_trial};

#[cfg(test)]
mod tests;

fn main(rt: HostRuntime) -> ExitCode {
    match run(&rt) {
        Ok(()) => ExitCode::SUCCESS,
        Err(fault) => {
            let _ = eprintln!(rt; "sea_trail_trial: {fault}");
            ExitCode::from(fault.status())
        }
    }
}

// Runs the trial that the words ask for, and prints what it counted.
fn run(rt: &HostRuntime) -> Result<(), TrialFault> {
    let mut words = env::args(rt)?.skip(1);
    let (Some(work), Some(segments), Some(times), None) = (
        words.next(),
        words.next(),
        words.next(),
        words.next(),
    ) else {
        return Err(TrialFault::Usage);
    };
    let work = match work.as_str() {
        "scan" => Work::Scan,
        "hash" => Work::Hash,
        "spell" => Work::Spell,
        _ => return Err(TrialFault::Usage),
    };
    let report = run_trial(
        rt.alloc(),
        work,
        number(segments.as_str())?,
        number(times.as_str())?,
    )?;
    println!(rt; "{report}")?;
    Ok(())
}

fn number(word: &str) -> Result<u32, TrialFault> {
    word.parse().map_err(|_| TrialFault::Usage)
}
