//! What a run is asked for.

ghost use Rattle.std.specs.Prelude.{◌≡◌, ◌≤◌};

use crate::asked::Emit;
use crate::host::Host;
use ep_run::Limits;
use std::marker::Model;

/// What a run is asked for: its host, what is printed of it, and its limits.
#[derive(Drop)]
pub struct RunOptions {
    host: Host,
    emit: Emit,
    capacity: u64,
    turns: u64,
}

impl Model for RunOptions {
    ghost use Rattle.std.specs.Prelude.{◌≤◌};
    ghost use Rattle.ep_main.specs.Options.{Options};

    ghost Value = { Options };

    ghost view = { λ o. record { host = o.host; emit = o.emit; capacity = o.capacity; turns = o.turns } };

    ghost invariant = { λ o. (1 ≤ o.capacity) × (o.capacity ≤ 4096) × (1 ≤ o.turns) × (o.turns ≤ 10000000) };
}

impl RunOptions {
    /// A run by this host, of which this is printed, with inboxes of this capacity, 1 to 4,096, and so many turns, 1 to 10,000,000.
    pub fn new(host: Host, emit: Emit, capacity: u64, turns: u64) -> RunOptions
        requires { (1 ≤ capacity) × (capacity ≤ 4096) × (1 ≤ turns) × (turns ≤ 10000000) }
        ensures { result ≡ record { host = host; emit = emit; capacity = capacity; turns = turns } }
    {
        RunOptions {
            host,
            emit,
            capacity,
            turns,
        }
    }

    /// The host of the run.
    pub fn host(&self) -> Host
        ensures { result ≡ self.now.host }
    {
        self.host
    }

    /// What is printed of the run.
    pub fn emit(&self) -> Emit
        ensures { result ≡ self.now.emit }
    {
        self.emit
    }

    /// The limits of the run.
    pub fn limits(&self) -> Limits
        ensures capacity { result.capacity ≡ self.now.capacity }
        ensures turns { result.turns ≡ self.now.turns }
    {
        Limits {
            capacity: self.capacity as usize,
            turns: self.turns as u32,
        }
    }
}
