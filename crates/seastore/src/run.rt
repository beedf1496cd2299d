//! A run of the program, and the status that it ends with.
ghost use Rattle.std.specs.Prelude.{◌≡◌, IfOk, OnErr};
ghost use Rattle.std.specs.Process.{exit_status};
ghost use Rattle.sea_top.specs.Refusal.{status_of};

use sea_base::NoMemory;
use sea_device::SteadyDevice;
use sea_file::{StdSink, StdSource};
use sea_top::{Refusal, Status, tool};
use std::io::Eprint;
use std::process::{ExitCode, Termination};
use std::rt::Env;
use std::{env, io};

#[cfg(test)]
mod tests;

/// The blocks of the device in memory.
const BLOCKS: u32 = 2049;

/// How a run ended. Only a run makes one, so `main` ends with the status of its own.
#[derive(Clone, Copy)]
pub struct Ended {
    status: Status,
}

impl Ended {
    // The status of what was done, or where nothing began that of want of memory.
    fn of(done: Result<Status, NoMemory>) -> Ended
        ensures status { IfOk done (λ status. result.status ≡ status) }
        ensures no_memory { OnErr done (result.status.0 ≡ status_of Refusal.NoMemory) }
    {
        Ended {
            status: done.unwrap_or(Refusal::NoMemory.status()),
        }
    }
}

impl Termination for Ended {
    /// The status is the exit code.
    fn report<R: Eprint>(self, _rt: &R) -> ExitCode
        ensures { exit_status result ≡ self.status.0 }
    {
        ExitCode::from(self.status.0)
    }
}

/// Does the command that the program's words name.
pub fn run(rt: &HostRuntime) -> Ended {
    Ended::of(done(rt))
}

// Does the command, and fails only for want of memory before it begins.
fn done(rt: &HostRuntime) -> Result<Status, NoMemory> {
    let words = words(rt).map_err(|_| NoMemory)?;
    let device = SteadyDevice::new(rt.alloc(), BLOCKS)?;
    let mut input = StdSource::new(rt.reader());
    let mut out = StdSink::new(io::writer(rt));
    let (status, _) = tool(rt.alloc(), &words, &mut input, &mut out, device);
    Ok(status)
}

// The words behind the program's name.
fn words(rt: &(impl Env + AllocGlobal)) -> io::Result<Vec<String>> {
    let mut words = Vec::new(rt.alloc());
    for word in env::args(rt)?.skip(1) {
        words.push(word)?;
    }
    Ok(words)
}
