//! What an engine asks of transactions.
ghost use Rattle.std.specs.Prelude.{◌≡◌, ◌≢◌, ℕ};

use super::Workspace;
use crate::{Committed, PieceStore, Transaction, read_pieces, spell_pieces};
use sea_base::{Commit, Data, NoMemory};
use sea_object::{Op, Reply};
use sea_sets::Conflict;
use sea_transactions::{ExecFault, Executed, Transactions};
use std::alloc::Global;
use std::mem;

impl Transactions for Workspace {
    ghost use Rattle.sea_pieces.specs.Laying.{IsServed};
    ghost use Rattle.sea_pieces.specs.WorkLaws.{change_laid, change_small, nothing_laid, one_made};
    ghost use Rattle.sea_pieces.specs.WorkLaws.{reply_right};
    ghost use Rattle.sea_pieces.specs.Works.{HasDone, IsReady, Lays, state_of};

    ghost state = { state_of };

    ghost did = { HasDone };

    ghost ready = { IsReady };

    ghost lays = { Lays };

    ghost serves = { IsServed };

    ghost right = { reply_right };

    ghost laid = { change_laid };

    ghost small = { change_small };

    ghost one = { one_made };

    ghost nothing = { nothing_laid };

    fn new(alloc: Global, clients: u32) -> Result<Workspace, NoMemory> {
        let store = PieceStore::new(alloc, Committed::new(alloc), Commit(0), clients)?;
        let mut transactions = Vec::new(alloc);
        for _ in 0..clients {
            transactions.push(Transaction::new(alloc))?;
        }
        Ok(Workspace {
            alloc,
            store,
            transactions,
        })
    }

    fn replay(&mut self, commit: Commit, change: &[u8]) -> Result<bool, NoMemory> {
        let Some(pieces) = read_pieces(self.alloc, change)? else {
            return Ok(false);
        };
        self.store.replay(commit, pieces)?;
        Ok(true)
    }

    /// It takes no memory.
    fn begin(&mut self, client: u32) -> Result<(), NoMemory> {
        self.transactions[client as usize - 1] = self.store.begin(client);
        Ok(())
    }

    fn exec(&mut self, client: u32, op: &Op) -> Result<Executed, ExecFault> {
        if let Some(conflict) = self.store.is_sent_back(client) {
            self.store.end(client);
            return Err(ExecFault::SentBack(conflict));
        }
        let transaction = &mut self.transactions[client as usize - 1];
        match self.store.exec(client, transaction, op) {
            Ok(()) => Ok(Executed::Done),
            Err(_) => {
                self.store.end(client);
                Err(ExecFault::NoMemory)
            }
        }
    }

    fn sent_back(&self, client: u32) -> Option<Conflict> {
        self.store.is_sent_back(client)
    }

    fn change(&self, client: u32) -> Result<Data, NoMemory> {
        spell_pieces(self.alloc, self.transactions[client as usize - 1].changes())
    }

    fn prepare(&mut self, client: u32) -> Result<(), NoMemory> {
        self.store
            .prepare(self.transactions[client as usize - 1].changes())
    }

    fn commit(&mut self, client: u32, commit: Commit) -> Reply {
        let (items, pieces) = self.take(client).into_parts();
        self.store.commit(client, commit, pieces);
        Reply::Done(items)
    }

    fn end(&mut self, client: u32) -> Reply {
        let (items, _) = self.take(client).into_parts();
        self.store.end(client);
        Reply::Done(items)
    }
}

impl Workspace {
    ghost use Rattle.sea_sets.specs.Board.{HasClient};
    ghost use Rattle.sea_pieces.specs.Works.{work_of};

    // What a client's transaction has done, which then has done nothing.
    fn take(&mut self, client: u32) -> Transaction
        requires { HasClient self.old.store.board client }
        ensures taken { result ≡ work_of self.old client }
        ensures others { (c : ℕ) → c ≢ client → work_of self.new c ≡ work_of self.old c }
        ensures store { self.new.store ≡ self.old.store }
    {
        let nothing = Transaction::new(self.alloc);
        mem::replace(&mut self.transactions[client as usize - 1], nothing)
    }
}
