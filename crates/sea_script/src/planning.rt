//! The plan of requests.
ghost use Rattle.std.specs.Prelude.{◌≡◌, ◌≤◌, ℕ, length, IfOk};
ghost use Rattle.std.specs.List.{AllByRecursion};
ghost use Rattle.sea_script.specs.Script.{IsClient, greatest_client, plan_of, requests_by};

use crate::asked::Asked;
use sea_base::NoMemory;
use sea_history::Plan;
use std::alloc::Global;

/// The requests of each client, up to the greatest that is named.
pub fn plan_of(alloc: Global, all: Vec<Asked>) -> Result<Plan, NoMemory>
    requires clients { AllByRecursion (λ a. IsClient a.client) all.items }
    requires few { (client : ℕ) → IsClient client → length (requests_by client all.items) ≤ 10000 }
    ensures { IfOk result (λ plan. plan ≡ plan_of all.items) }
{
    let mut plan = Plan::new(alloc, greatest_client(&all))?;
    let mut left = all.into_iter();
    while let Some(Asked { client, request }) = left.next() {
        plan.add(client, request)?;
    }
    Ok(plan)
}

// The greatest client that is named, or 1.
fn greatest_client(all: &[Asked]) -> u32
    ensures { result ≡ greatest_client all.now }
{
    let mut greatest = 1;
    for asked in all {
        greatest = greatest.max(asked.client);
    }
    greatest
}
