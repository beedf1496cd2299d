//! Scripts: the text that asks for requests.
ghost use Rattle.std.specs.Prelude.{◌≡◌, ◌↔◌, List, IfOk, IfErr, IsTrue, MatchResult};
ghost use Rattle.sea_plain_script.specs.declared.plan.Asked.{Asked};
ghost use Rattle.sea_plain_script.specs.ScriptReading.{AddsLine};
ghost use Rattle.sea_plain_script.specs.Script.{IsBlank, IsRefusal, IsScript};

mod fault;
mod parts;
mod request;
mod word;

use crate::Plan;
use fault::LineFault;
use parts::Parts;
use request::asked;
use sea_base::Sequence;
use std::alloc::Global;
use thiserror::Error;
use word::NOT_BUILT;

/// The bytes of an input at most.
const INPUT_BYTES: usize = 67_108_864;

/// The requests of a script at most.
const REQUESTS: usize = 10_000;

/// Why a line is refused.
#[derive(Clone, Copy, Debug, PartialEq, Eq, Error)]
pub enum ScriptWhy {
    /// The line is neither blank nor asks for a request that is served.
    #[error("not built")]
    NotBuilt,
}

/// Why an input is no script.
#[derive(Clone, Copy, Debug, PartialEq, Eq, Error)]
pub enum ScriptFault {
    /// Memory ran out.
    #[error("no memory")]
    NoMemory,
    /// This line is the first of another form. Lines count from 1; line 0 stands for an input of more
    /// than 67,108,864 bytes.
    #[error("line {line}: {why}")]
    Refused {
        /// The number of the line.
        line: u32,
        /// Why it is refused.
        why: ScriptWhy,
    },
}

/// The plan that an input spells.
pub fn read_script(alloc: Global, input: &[u8]) -> Result<Plan, ScriptFault>
    ensures ok { IfOk result (IsScript input.now) }
    // The one plan that it spells.
    ensures only { (plan : List Asked) → IsScript input.now plan →
        MatchResult result (λ read. read ≡ plan) (λ fault. fault ≡ ScriptFault.NoMemory) }
    // Refused exactly where it is no script, at the first line of another form.
    ensures refused { IfErr result (IsRefusal input.now) }
{
    if input.len() > INPUT_BYTES {
        return Err(NOT_BUILT.at_line(0));
    }
    let mut plan = Sequence::new(alloc);
    let mut number = 0;
    let mut lines = Parts::new(b'\n', input);
    while let Some(line) = lines.next() {
        number += 1;
        if let Err(fault) = add_line(alloc, &mut plan, line) {
            return Err(fault.at_line(number));
        }
    }
    Ok(plan)
}

// Adds what a line asks for to the plan.
fn add_line(alloc: Global, plan: &mut Plan, line: &[u8]) -> Result<(), LineFault>
    ensures { AddsLine line.now plan.old plan.new result }
{
    if is_blank(line) {
        return Ok(());
    }
    if plan.items().len() >= REQUESTS {
        return Err(NOT_BUILT);
    }
    let asked = asked(alloc, line)?;
    plan.push(asked)?;
    Ok(())
}

// Whether a line is empty, or a comment.
fn is_blank(line: &[u8]) -> bool
    ensures { IsTrue result ↔ IsBlank line.now }
{
    match line {
        [] => true,
        [first, ..] => *first == b'#',
    }
}

#[cfg(test)]
mod tests;
