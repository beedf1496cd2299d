//! Trials of the journal: crashes within each write of a run, each call of the device failing once, and
//! records pushed and synced so many times.
#![tactic(auto)]

mod bodies;
mod calls;
mod crashes;
mod disk;
mod failing;
mod fault;
mod past;
mod rolling;
mod running;
mod speed;

use crashes::crash_each_write;
use failing::fail_each_call;
use fault::TrialFault;
use speed::{hash_records, push_records};
use std::env;
use std::process::ExitCode;

#[cfg(test)]
mod tests;

fn main(rt: HostRuntime) -> ExitCode {
    match run(&rt) {
        Ok(()) => ExitCode::SUCCESS,
        Err(fault) => {
            let _ = eprintln!(rt; "sea_journal_trial: {fault}");
            ExitCode::from(fault.status())
        }
    }
}

// Runs the trial that the words ask for, and prints what it counted.
fn run(rt: &HostRuntime) -> Result<(), TrialFault> {
    let mut words = env::args(rt)?.skip(1);
    let (Some(work), number, None) = (words.next(), words.next(), words.next()) else {
        return Err(TrialFault::Usage);
    };
    let alloc = rt.alloc();
    match (work.as_str(), number) {
        ("crashes", Some(lost)) => {
            println!(rt; "{}", crash_each_write(alloc, counted(lost.as_str())?)?)?;
        }
        ("push", Some(count)) => {
            println!(rt;
                "records {}",
                push_records(alloc, counted(count.as_str())?)?
            )?;
        }
        ("hash", Some(count)) => {
            println!(rt; "hashed {}", hash_records(alloc, counted(count.as_str())?)?)?;
        }
        ("faults", None) => println!(rt; "calls {}", fail_each_call(alloc)?)?,
        _ => return Err(TrialFault::Usage),
    }
    Ok(())
}

fn counted(word: &str) -> Result<u32, TrialFault> {
    word.parse().map_err(|_| TrialFault::Usage)
}
