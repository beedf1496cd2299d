//! Printing how a command ended.
ghost use Rattle.std.specs.Prelude.{◌≡◌, ◌≤◌, ◌++◌, ℕ, List, Option, length, Some, string_bytes, IfOk, OnOk};
ghost use Rattle.std.specs.List.{flat_map};
ghost use Rattle.sea_top.specs.Headline.{run_text};
ghost use Rattle.sea_top.specs.Refusal.{why_text, refusal_line, ending_line};
ghost use Rattle.sea_top.specs.Printing.{Says};
ghost use Rattle.sea_plain_script.specs.Render.{entry_line, end_line};

use crate::input::put_all;
use crate::run::Run;
use crate::{Refusal, Status};
use sea_base::NoMemory;
use sea_device::Sink;
use sea_plain_script::{Entry, ScriptWhy, push_end, push_entry};
use std::alloc::Global;
use std::fmt::Write;

/// Prints what a run served and how it ended.
pub fn print_run<O: Sink>(alloc: Global, out: &mut O, run: &Run) -> Status
    requires { run.now.acknowledged ≤ length run.now.history }
    ensures { Says O.taken O.faults out.old out.new (run_text run.now.history run.now.acknowledged) run.now.ending result.0 }
{
    let text = run_text(alloc, &run.history.items()[..run.acknowledged], run.ending);
    say(out, text, run.ending)
}

/// Prints the line of a refusal.
pub fn print_refusal<O: Sink>(alloc: Global, out: &mut O, refusal: Refusal) -> Status
    ensures { Says O.taken O.faults out.old out.new ending_line (Some refusal) result.0 }
{
    let text = ending_text(alloc, Some(refusal));
    say(out, text, Some(refusal))
}

// Puts out a text, where there was memory for it.
fn say<O: Sink>(out: &mut O, text: Result<String, NoMemory>, ending: Option<Refusal>) -> Status
    ensures { (lines : Option Refusal → List ℕ) → IfOk text (λ t. string_bytes t ≡ lines ending)
        → Says O.taken O.faults out.old out.new lines ending result.0 }
{
    let Ok(text) = text else {
        return Refusal::NoMemory.status();
    };
    match put_all(out, text.as_bytes()) {
        Err(_) => Status::WRITE_FAULT,
        Ok(()) => match ending {
            None => Status::DONE,
            Some(refusal) => refusal.status(),
        },
    }
}

// The text of a run: entries, the closing line, the refusal's line.
fn run_text(alloc: Global, entries: &[Entry], ending: Option<Refusal>) -> Result<String, NoMemory>
    ensures { IfOk result (λ text. string_bytes text
        ≡ flat_map entry_line entries.now ++ end_line (length entries.now) 0 ++ ending_line ending) }
{
    let mut text = String::new(alloc);
    for entry in entries {
        push_entry(&mut text, entry)?;
    }
    push_end(&mut text, entries.len(), 0)?;
    push_ending(&mut text, ending)?;
    Ok(text)
}

fn ending_text(alloc: Global, ending: Option<Refusal>) -> Result<String, NoMemory>
    ensures { IfOk result (λ text. string_bytes text ≡ ending_line ending) }
{
    let mut text = String::new(alloc);
    push_ending(&mut text, ending)?;
    Ok(text)
}

fn push_ending(text: &mut String, ending: Option<Refusal>) -> Result<(), NoMemory>
    ensures { OnOk result (string_bytes text.new ≡ string_bytes text.old ++ ending_line ending) }
{
    match ending {
        None => Ok(()),
        Some(refusal) => push_refusal(text, refusal),
    }
}

#[tactic(auto, unfolding(crate::specs::Refusal::refusal_line, crate::specs::Refusal::why_text))]
fn push_refusal(text: &mut String, refusal: Refusal) -> Result<(), NoMemory>
    ensures { OnOk result (string_bytes text.new ≡ string_bytes text.old ++ refusal_line refusal) }
{
    match refusal {
        Refusal::Usage => text.push_str("usage\n")?,
        Refusal::Script {
            line,
            why: ScriptWhy::NotBuilt,
        } => write!(text, "script {line} NotBuilt\n")?,
        Refusal::DeviceFault => text.push_str("device fault\n")?,
        Refusal::NoMemory => text.push_str("no memory\n")?,
        Refusal::ReadFault => text.push_str("read fault\n")?,
    }
    Ok(())
}
