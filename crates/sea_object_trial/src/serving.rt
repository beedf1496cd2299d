//! Requests served on a map of objects.
ghost use Rattle.std.specs.Prelude.{◌≡◌};
ghost use Rattle.sea_history.specs.Plan.{IsClientOf};
ghost use Rattle.sea_history.specs.Record.{HasClient};

use crate::fault::TrialFault;
use sea_base::NoMemory;
use sea_history::{Entry, HISTORY_ENTRIES, History, Plan};
use sea_object::{Objects, Request};
use sea_script::{push_end, push_entry};
use std::alloc::Global;

/// Serves a plan, client after client, and answers the history.
pub fn serve(alloc: Global, objects: &mut Objects, plan: &Plan) -> Result<History, TrialFault> {
    let clients = plan.clients();
    let mut history = History::new(alloc, clients)?;
    for client in 1..=clients {
        serve_client(&mut history, objects, plan, client)?;
    }
    Ok(history)
}

// Serves a client's requests.
fn serve_client(
    history: &mut History,
    objects: &mut Objects,
    plan: &Plan,
    client: u32,
) -> Result<(), TrialFault>
    requires held { HasClient history.old client }
    requires planned { IsClientOf client plan.now }
    ensures { history.new.clients ≡ history.old.clients }
{
    for number in 1..=plan.count(client) {
        serve_next(history, objects, client, plan.request(client, number))?;
    }
    Ok(())
}

// Serves a client's next request.
fn serve_next(
    history: &mut History,
    objects: &mut Objects,
    client: u32,
    request: &Request,
) -> Result<(), TrialFault>
    requires { HasClient history.old client }
    ensures { history.new.clients ≡ history.old.clients }
{
    if history.entries().len() >= HISTORY_ENTRIES as usize {
        return Err(TrialFault::TooMany);
    }
    history.reserve()?;
    let reply = objects.apply(request)?;
    history.add(client, reply);
    Ok(())
}

/// The text of a history.
pub fn text_of(alloc: Global, history: &History) -> Result<String, NoMemory> {
    let mut text = String::new(alloc);
    for entry in history.entries() {
        push_entry(&mut text, entry)?;
    }
    let lines = u32::try_from(history.entries().len()).unwrap_or(u32::MAX);
    push_end(&mut text, lines, history.sent_back())?;
    Ok(text)
}
