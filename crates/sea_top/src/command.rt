//! The commands, from words and input to output and device.
ghost use Rattle.std.specs.Prelude.{◌≡◌, ◌↔◌, ◌≤◌, ◌++◌, ◌∷◌, [], ℕ, List, length, Some, IsTrue, map, string_bytes, codes};
ghost use Rattle.sea_top.specs.Causes.{IsSteps, Causes, ComesOf};
ghost use Rattle.sea_top.specs.Headline.{Comes, Headline};
ghost use Rattle.sea_top.specs.Serving.{AsksFirst};

use crate::planning::read_plan;
use crate::print::{print_refusal, print_run};
use crate::run::serve;
use crate::{Refusal, Status};
use sea_device::{Device, Sink, Source};
use sea_plain_script::Plan;
use std::alloc::Global;

/// Does the command that the words name, and answers its status and the device. The one command is
/// `steps`: it reads a script to its end, serves its requests over the device and prints the replies.
pub fn tool<D: Device, I: Source, O: Sink>(
    alloc: Global,
    words: &[String],
    input: &mut I,
    out: &mut O,
    device: D,
) -> (Status, D)
    // Each status has its cause, over any device, source and sink.
    ensures causes { Causes (map string_bytes words.now) (I.remaining input.old)
        (D.faults device) (D.faults result.1) (I.faults input.old) (I.faults input.new) (O.faults out.old) (O.faults out.new)
        result.0.0 device result.1 }
    // Over a device, a source and a sink that tell their bytes there is a history for which the headline holds.
    ensures headline { (image text before : List ℕ) → IsSteps (map string_bytes words.now) → D.contents device ≡ Some image
        → I.remaining input.old ≡ Some text → O.taken out.old ≡ Some before
        → (printed : List ℕ) × (O.taken out.new ≡ Some (before ++ printed))
        × Headline text image (D.size device) result.0.0 printed (I.remaining input.new) (D.contents result.1) (D.may_leave result.1)
        (D.may_leave device) (D.clock device) (D.clock result.1) (D.left_since result.1) }
{
    if is_steps(words) {
        steps(alloc, input, out, device)
    } else {
        (print_refusal(alloc, out, Refusal::Usage), device)
    }
}

// Whether the words are the one word `steps`.
fn is_steps(words: &[String]) -> bool
    ensures { IsTrue result ↔ IsSteps (map string_bytes words.now) }
{
    match words {
        [word] => word.as_str() == "steps",
        _ => false,
    }
}

// Reads a script, serves it over the device and prints the replies.
fn steps<D: Device, I: Source, O: Sink>(
    alloc: Global,
    input: &mut I,
    out: &mut O,
    device: D,
) -> (Status, D)
    ensures causes { Causes (codes "steps" ∷ []) (I.remaining input.old)
        (D.faults device) (D.faults result.1) (I.faults input.old) (I.faults input.new) (O.faults out.old) (O.faults out.new)
        result.0.0 device result.1 }
    ensures headline { (image text before : List ℕ) → D.contents device ≡ Some image
        → I.remaining input.old ≡ Some text → O.taken out.old ≡ Some before
        → (printed : List ℕ) × (O.taken out.new ≡ Some (before ++ printed))
        × Headline text image (D.size device) result.0.0 printed (I.remaining input.new) (D.contents result.1) (D.may_leave result.1)
        (D.may_leave device) (D.clock device) (D.clock result.1) (D.left_since result.1) }
{
    match read_plan(alloc, input) {
        Err(refusal) => (print_refusal(alloc, out, refusal), device),
        Ok(plan) => {
            let mut device = device;
            let status = serve_and_print(alloc, out, &mut device, &plan);
            (status, device)
        }
    }
}

// Serves a plan over the device, and prints what was served.
fn serve_and_print<D: Device, O: Sink>(
    alloc: Global,
    out: &mut O,
    device: &mut D,
    plan: &Plan,
) -> Status
    requires first { AsksFirst plan.now }
    requires few { length plan.now ≤ 10000 }
    ensures causes { ComesOf (D.faults device.old) (D.faults device.new) (O.faults out.old) (O.faults out.new) result.0 }
    ensures comes { (image before : List ℕ) → D.contents device.old ≡ Some image → O.taken out.old ≡ Some before
        → (printed : List ℕ) × (O.taken out.new ≡ Some (before ++ printed))
        × Comes plan.now image (D.size device.old) result.0 printed (D.contents device.new) (D.may_leave device.new)
        (D.may_leave device.old) (D.clock device.old) (D.clock device.new) (D.left_since device.new) }
{
    match serve(alloc, device, plan.items()) {
        Err(refusal) => print_refusal(alloc, out, refusal),
        Ok(run) => print_run(alloc, out, &run),
    }
}
