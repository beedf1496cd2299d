//! A trial of scripts: it reads a script from standard input, serves its requests on a map of
//! objects, and does one kind of work on it so many times.
#![tactic(auto)]

mod fault;
mod serving;
mod trial;

use fault::TrialFault;
use std::env;
use std::io::Read;
use std::process::ExitCode;
use trial::{Work, run_trial};

#[cfg(test)]
mod tests;

fn main(rt: HostRuntime) -> ExitCode {
    match run(&rt) {
        Ok(()) => ExitCode::SUCCESS,
        Err(fault) => {
            let _ = eprintln!(rt; "sea_object_trial: {fault}");
            ExitCode::from(fault.status())
        }
    }
}

// Runs the trial that the words ask for, and prints what it counted.
fn run(rt: &HostRuntime) -> Result<(), TrialFault> {
    let mut words = env::args(rt)?.skip(1);
    let (Some(work), Some(times), None) = (words.next(), words.next(), words.next()) else {
        return Err(TrialFault::Usage);
    };
    let work = work_of(work.as_str())?;
    let times = times.parse().map_err(|_| TrialFault::Usage)?;
    let mut input = Vec::new(rt.alloc());
    rt.reader().read_to_end(&mut input)?;
    let report = run_trial(rt.alloc(), work, &input, times)?;
    println!(rt; "{report}")?;
    Ok(())
}

fn work_of(word: &str) -> Result<Work, TrialFault> {
    match word {
        "parse" => Ok(Work::Parse),
        "render" => Ok(Work::Render),
        "apply" => Ok(Work::Apply),
        _ => Err(TrialFault::Usage),
    }
}
