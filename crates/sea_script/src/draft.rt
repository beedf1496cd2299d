//! What the lines so far give.
ghost use Rattle.std.specs.Prelude.{◌≡◌, ◌++◌, [], List, Some, unwrap_or, IfOk, OnOk};
ghost use Rattle.sea_script.specs.declared.event.Event.{Event};
ghost use Rattle.sea_script.specs.ReadingLines.{AddsLine, AddsRequest};
ghost use Rattle.sea_script.specs.Script.{IsClient, nothing, plan_of};

use crate::asked::{Asked, read_asked, reads_weight};
use crate::event::{Events, events};
use crate::fault::LineFault;
use crate::planning::plan_of;
use crate::text::{is_blank, is_text, words_of};
use crate::{Script, ScriptWhy};
use sea_base::{NoMemory, Sequence};
use sea_history::CLIENT_REQUESTS;
use std::alloc::Global;
use std::marker::Model;

/// What the reads of a script weigh at most, in bytes.
const READ_WEIGHT: u64 = 1_073_741_824;

/// What the lines so far give: the requests in order, and the events once `schedule` has come.
#[derive(Drop)]
pub struct Draft {
    asked: Vec<Asked>,
    counts: [u32; 16],
    weight: u64,
    events: Option<Events>,
}

impl Model for Draft {
    ghost use Rattle.sea_script.specs.Script.{Given};
    ghost use Rattle.sea_script.specs.ReadingLines.{IsDraft, given_of};

    ghost Value = { Given };

    ghost view = { given_of };

    ghost invariant = { IsDraft };
}

impl Draft {
    /// Nothing so far.
    pub fn new(alloc: Global) -> Draft
        ensures { result ≡ nothing }
    {
        Draft {
            asked: Vec::new(alloc),
            counts: [0; 16],
            weight: 0,
            events: None,
        }
    }

    /// Adds what a line gives.
    pub fn add_line(&mut self, alloc: Global, scheduled: bool, line: &[u8]) -> Result<(), LineFault>
        ensures { AddsLine scheduled line.now self.old self.new result }
    {
        if is_blank(line) {
            return Ok(());
        }
        let words = words_of(alloc, line)?;
        if !is_text(line, &words) {
            return Err(LineFault::Why(ScriptWhy::BadText));
        }
        if self.events.is_some() {
            let more = events(alloc, &words)?;
            self.add_events(more)?;
            return Ok(());
        }
        if line != b"schedule".as_slice() {
            let asked = read_asked(alloc, &words)?;
            return self.add_request(asked);
        }
        if !scheduled {
            return Err(LineFault::Why(ScriptWhy::ScheduleInRun));
        }
        self.events = Some(Sequence::new(alloc));
        Ok(())
    }

    // Adds events behind those that there are.
    fn add_events(&mut self, more: Events) -> Result<(), NoMemory>
        ensures { OnOk result ((old : List Event) → self.old.events ≡ Some old →
            self.new ≡ record self.old { events = Some (old ++ more) }) }
    {
        if let Some(all) = &mut self.events {
            for event in more.items() {
                all.push(*event)?;
            }
        }
        Ok(())
    }

    // Adds a request, where its client has fewer than 10,000 and the reads don't weigh too much.
    fn add_request(&mut self, asked: Asked) -> Result<(), LineFault>
        requires { IsClient asked.client }
        ensures { AddsRequest asked self.old self.new result }
    {
        let place = asked.client as usize - 1;
        if self.counts[place] >= CLIENT_REQUESTS {
            return Err(LineFault::Why(ScriptWhy::TooManyRequests));
        }
        let weight = self.weight + reads_weight(asked.request.ops());
        if weight > READ_WEIGHT {
            return Err(LineFault::Why(ScriptWhy::TooMuchRead));
        }
        self.asked.push(asked)?;
        self.counts[place] += 1;
        self.weight = weight;
        Ok(())
    }

    /// The script.
    pub fn into_script(self, alloc: Global) -> Result<Script, NoMemory>
        ensures { IfOk result (λ script. (script.plan ≡ plan_of self.asked)
            × (script.events ≡ unwrap_or self.events [])) }
    {
        let plan = plan_of(alloc, self.asked)?;
        let events = match self.events {
            Some(events) => events,
            None => Sequence::new(alloc),
        };
        Ok(Script { plan, events })
    }
}
