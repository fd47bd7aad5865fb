//! The clients of a replay.

ghost use Rattle.std.specs.Prelude.{◌≡◌, ℕ, ◌+◌, ◌++◌, ◌∷◌, [], List, eqb, cond, OnOk, IfOk};
ghost use Rattle.ep_rules.specs.declared.receipt.Receipt.{Receipt as Reported};
ghost use Rattle.ep_replay.specs.Clients.{times, greatest};
ghost use Rattle.ep_replay.specs.Tables.{known, AreCounted};

use ep_rules::Receipt;
use indexmap::IndexMap;
use std::alloc::{AllocError, Global};

/// What a client has done and seen.
#[derive(Clone, Copy)]
pub struct Client {
    /// How often it has proposed.
    pub requests: u32,
    /// The greatest stamp of its receipts, 0 where it has none.
    pub seen: u64,
}

/// What each client has done and seen.
#[derive(Drop)]
pub struct Clients {
    table: IndexMap<u32, Client>,
}

/// The number of the next request. No script has as many proposals as it can count.
fn next(requests: u32) -> Result<u32, AllocError>
    ensures { IfOk result (λ n. n ≡ requests + 1) }
{
    match requests.checked_add(1) {
        Some(next) => Ok(next),
        None => Err(AllocError),
    }
}

impl Clients {
    /// Nobody has done anything.
    pub fn new(alloc: Global) -> Clients
        ensures { AreCounted result [] [] }
    {
        Clients {
            table: IndexMap::new(alloc),
        }
    }

    /// What is known of the client.
    fn get(&self, client: u32) -> Client
        ensures { result ≡ known self.now client }
    {
        match self.table.get(&client) {
            None => Client {
                requests: 0,
                seen: 0,
            },
            Some(known) => *known,
        }
    }

    /// Keeps this of the client, in place of what was known.
    fn set(&mut self, client: u32, value: Client) -> Result<(), AllocError>
        ensures { OnOk result ((c : ℕ) → known self.new c ≡ cond (eqb client c) value (known self.old c)) }
    {
        self.table.insert(client, value)?;
        Ok(())
    }

    /// Counts one proposal more of the client, and gives what is then known of it.
    pub fn count(&mut self, client: u32) -> Result<Client, AllocError>
        ensures requests { IfOk result (λ k. (ps : List ℕ) (ts : List Reported) → AreCounted self.old ps ts → k.requests ≡ times client ps + 1) }
        ensures seen { IfOk result (λ k. (ps : List ℕ) (ts : List Reported) → AreCounted self.old ps ts → k.seen ≡ greatest client ts) }
        ensures counted { OnOk result ((ps : List ℕ) (ts : List Reported) → AreCounted self.old ps ts → AreCounted self.new (ps ++ client ∷ []) ts) }
    {
        let before = self.get(client);
        let requests = next(before.requests)?;
        let known = Client {
            requests,
            seen: before.seen,
        };
        self.set(client, known)?;
        Ok(known)
    }

    /// The client of the receipt has seen its stamp.
    fn note(&mut self, receipt: &Receipt) -> Result<(), AllocError>
        ensures { OnOk result ((ps : List ℕ) (ts : List Reported) → AreCounted self.old ps ts → AreCounted self.new ps (ts ++ receipt.now ∷ [])) }
    {
        let before = self.get(receipt.client);
        let known = Client {
            requests: before.requests,
            seen: before.seen.max(receipt.stamp),
        };
        self.set(receipt.client, known)?;
        Ok(())
    }

    /// The clients of the receipts have seen their stamps.
    pub fn note_all(&mut self, receipts: &[Receipt]) -> Result<(), AllocError>
        ensures { OnOk result ((ps : List ℕ) (ts : List Reported) → AreCounted self.old ps ts → AreCounted self.new ps (ts ++ receipts.now)) }
    {
        for receipt in receipts {
            self.note(receipt)?;
        }
        Ok(())
    }
}
