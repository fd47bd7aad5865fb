//! Reads that write nothing: what a look finds, and what a read is answered.

use crate::replica::Replica;
use ep_base::{Command, Deps, InstanceId, Reply};
use std::alloc::{AllocError, Global};

/// What a read is answered.
#[derive(Debug, Drop)]
pub enum Reading {
    /// All that the looks found is executed: this is the map's reply.
    Replied(Reply),
    /// This instance, which the looks found, isn't executed yet. It is the least of them.
    Waits(InstanceId),
}

impl Replica {
    ghost use Rattle.std.specs.Prelude.{◌≡◌, false, IfOk};
    ghost use Rattle.ep_base.specs.Sameness.{is_noop};
    ghost use Rattle.ep_rules.specs.InterferenceSet.{interference};
    ghost use Rattle.ep_replica.specs.Pending.{state_of};
    ghost use Rattle.ep_replica.specs.Reading.{IsReading};

    /// What a look at the replica finds for the command: the instances of all records whose commands interfere with it.
    pub fn interfering(&self, alloc: Global, command: &Command) -> Result<Deps, AllocError>
        ensures { IfOk result (λ d. d ≡ (interference (state_of self.now).records 0 command.now).deps) }
    {
        self.journal().interfering(alloc, command)
    }

    /// Answers a read, given all that the looks found: the map's reply, if all of it is executed here, else the least that isn't.
    ///
    /// A closed map replies so. Nothing is written, and nothing is sent.
    pub fn read(&self, command: &Command, found: &[InstanceId]) -> Result<Reading, AllocError>
        requires { is_noop command.now ≡ false }
        ensures { IfOk result (λ r. IsReading (state_of self.now) command.now found.now r) }
    {
        match self.journal().least_left(found) {
            Some(instance) => Ok(Reading::Waits(instance)),
            None => Ok(Reading::Replied(self.journal().reply(command)?)),
        }
    }
}
