//! What was served, and what of it is acknowledged.
ghost use Rattle.std.specs.Prelude.{◌≡◌, ◌+◌, ◌<◌, ◌≤◌, length, max, IfOk, OnOk, OnErr};
ghost use Rattle.sea_history.specs.History.{AreNumbered};
ghost use Rattle.sea_history.specs.Record.{HasClient, acknowledged, added, empty_record, reserved, sent_back_again};

use sea_base::NoMemory;
use sea_object::Reply;
use std::alloc::Global;
use std::marker::Model;

/// The entries of a history at most: 10,000 requests of each of 16 clients.
pub const HISTORY_ENTRIES: u32 = 160_000;

/// How often clients are sent back at most: each entry sends 15 others back.
pub const SENT_BACK: u64 = 2_400_000;

/// A served request: its client, its number among that client's requests, from 1 on, and its reply.
#[derive(Debug, PartialEq, Drop)]
pub struct Entry {
    pub client: u32,
    pub number: u32,
    pub reply: Reply,
}

/// What was served, in order, how much of it is acknowledged, and how often a client was sent back.
/// Contracts see these beside the number of clients, and how many entries there is room for.
#[derive(Debug, Drop)]
pub struct History {
    entries: Vec<Entry>,
    counts: Vec<u32>,
    acknowledged: u32,
    sent_back: u64,
    spare: usize,
}

impl Model for History {
    ghost use Rattle.sea_history.specs.Record.{Record};

    ghost Value = { Record };

    ghost use Rattle.sea_history.specs.Record.{IsRecord, record_of};

    ghost view = { record_of };

    ghost invariant = { IsRecord };
}

impl History {
    /// The empty history of so many clients, which number from 1 on.
    pub fn new(alloc: Global, clients: u32) -> Result<History, NoMemory>
        ensures { IfOk result (λ history. history ≡ empty_record clients) }
    {
        let mut counts = Vec::new(alloc);
        for _ in 0..clients {
            counts.push(0)?;
        }
        Ok(History {
            entries: Vec::new(alloc),
            counts,
            acknowledged: 0,
            sent_back: 0,
            spare: 0,
        })
    }

    /// Makes room for an entry, where there is none.
    pub fn reserve(&mut self) -> Result<(), NoMemory>
        ensures ok { OnOk result (self.new ≡ reserved self.old) }
        ensures err { OnErr result (self.new ≡ self.old) }
    {
        self.entries.reserve(1)?;
        self.spare = self.spare.max(1);
        Ok(())
    }

    /// Enters the reply to a client's next request, for which there is room.
    pub fn add(&mut self, client: u32, reply: Reply)
        requires client { HasClient self.old client }
        requires room { 1 ≤ self.old.spare }
        requires few { length self.old.entries < HISTORY_ENTRIES }
        ensures { self.new ≡ added self.old client reply }
    {
        let place = client as usize - 1;
        let number = self.counts[place] + 1;
        self.counts[place] = number;
        self.spare -= 1;
        let entry = Entry {
            client,
            number,
            reply,
        };
        match self.entries.push(entry) {
            Ok(()) => {}
            Err(_) => unreachable!(),
        }
    }

    /// Acknowledges all that is entered.
    pub fn acknowledge(&mut self)
        ensures { self.new ≡ acknowledged self.old }
    {
        self.acknowledged = self.entries.len() as u32;
    }

    /// Notes that a client is sent back.
    pub fn note_back(&mut self)
        requires { self.old.sent_back < SENT_BACK }
        ensures { self.new ≡ sent_back_again self.old }
    {
        self.sent_back += 1;
    }

    /// The entries, in the order in which they were made.
    pub fn entries(&self) -> &[Entry]
        ensures entries { result.now ≡ self.now.entries }
        ensures numbered { AreNumbered self.now.entries }
    {
        self.entries.as_slice()
    }

    /// How many entries are acknowledged, from the first on.
    pub fn acknowledged(&self) -> u32
        ensures { result ≡ self.now.acknowledged }
    {
        self.acknowledged
    }

    /// How often a client was sent back.
    pub fn sent_back(&self) -> u64
        ensures { result ≡ self.now.sent_back }
    {
        self.sent_back
    }
}
