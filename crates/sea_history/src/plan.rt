//! What clients ask for.
ghost use Rattle.std.specs.Prelude.{◌≡◌, ◌++◌, ◌∷◌, [], ◌-◌, ◌<◌, ◌≤◌, length, set, replicate, slice_get, Some, IfOk, OnOk, OnErr};
ghost use Rattle.sea_history.specs.Plan.{IsClientOf, requests_of};

use sea_base::{NoMemory, Sequence};
use sea_object::Request;
use std::alloc::Global;
use std::marker::Model;

/// The clients of a plan at most.
pub const CLIENTS: u32 = 16;

/// The requests of a client at most.
pub const CLIENT_REQUESTS: u32 = 10_000;

/// The requests of each client, which contracts see as a list of requests for each client, in the
/// order of the clients. Clients and requests count from 1.
#[derive(Debug, Drop)]
pub struct Plan {
    requests: Vec<Sequence<Request>>,
}

impl Model for Plan {
    ghost use Rattle.sea_history.specs.Plan.{IsPlan, Requests};

    ghost Value = { Requests };

    ghost view = { λ p. p.requests.items };

    ghost invariant = { λ p. IsPlan p.requests.items };
}

impl Plan {
    /// A plan of so many clients, 1 to 16, without requests.
    pub fn new(alloc: Global, clients: u32) -> Result<Plan, NoMemory>
        requires { (1 ≤ clients) × (clients ≤ CLIENTS) }
        ensures { IfOk result (λ plan. plan ≡ replicate clients []) }
    {
        let mut requests = Vec::new(alloc);
        for _ in 0..clients {
            requests.push(Sequence::new(alloc))?;
        }
        Ok(Plan { requests })
    }

    /// Adds a request of a client, which has fewer than 10,000.
    pub fn add(&mut self, client: u32, request: Request) -> Result<(), NoMemory>
        requires client { IsClientOf client self.old }
        requires room { length (requests_of client self.old) < CLIENT_REQUESTS }
        ensures ok { OnOk result (self.new ≡
            set self.old (client - 1) (requests_of client self.old ++ request ∷ [])) }
        ensures err { OnErr result (self.new ≡ self.old) }
    {
        self.requests[client as usize - 1].push(request)
    }

    /// The number of clients.
    pub fn clients(&self) -> u32
        ensures { result ≡ length self.now }
    {
        self.requests.len() as u32
    }

    /// The number of a client's requests.
    pub fn count(&self, client: u32) -> u32
        requires { IsClientOf client self.now }
        ensures { result ≡ length (requests_of client self.now) }
    {
        self.requests[client as usize - 1].items().len() as u32
    }

    /// The request of this number, which the client has.
    pub fn request(&self, client: u32, number: u32) -> &Request
        requires client { IsClientOf client self.now }
        requires number { (1 ≤ number) × (number ≤ length (requests_of client self.now)) }
        ensures { slice_get (requests_of client self.now) (number - 1) ≡ Some result.now }
    {
        &self.requests[client as usize - 1].items()[number as usize - 1]
    }
}
