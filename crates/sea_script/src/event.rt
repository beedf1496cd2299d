//! The events of a schedule.
ghost use Rattle.std.specs.Prelude.{MatchOption};
ghost use Rattle.sea_script.specs.Reading.{seen};
ghost use Rattle.sea_script.specs.ReadingLines.{ReadsEvents};
ghost use Rattle.sea_script.specs.Script.{StandsFor};

use crate::ScriptWhy;
use crate::client::client_of;
use crate::fault::LineFault;
use sea_base::Sequence;
use std::alloc::Global;

/// An event of a schedule.
#[derive(Clone, Copy, Debug, PartialEq, Eq)]
pub enum Event {
    /// A step of this client, 1 to 16. A client without requests left takes idle steps.
    Client(u32),
    Sync,
    Trim,
    Pick,
    Move,
    Release,
}

/// Events, in order.
pub type Events = Sequence<Event>;

/// The events that words stand for.
pub fn events(alloc: Global, words: &[&[u8]]) -> Result<Events, LineFault>
    ensures { ReadsEvents (seen words.now) result }
{
    let mut events = Sequence::new(alloc);
    for word in words {
        match event_of(*word) {
            Some(event) => events.push(event)?,
            None => return Err(LineFault::Why(ScriptWhy::BadEvent)),
        }
    }
    Ok(events)
}

// The event that a word stands for.
fn event_of(word: &[u8]) -> Option<Event>
    ensures { MatchOption result ((event : Event) → StandsFor word.now event → ⊥)
        (λ event. StandsFor word.now event) }
{
    match word {
        b"sync" => Some(Event::Sync),
        b"trim" => Some(Event::Trim),
        b"pick" => Some(Event::Pick),
        b"move" => Some(Event::Move),
        b"release" => Some(Event::Release),
        _ => Some(Event::Client(client_of(word)?)),
    }
}
