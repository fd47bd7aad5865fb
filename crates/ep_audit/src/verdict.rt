//! What journals say.

ghost use Rattle.std.specs.Prelude.{◌≡◌, ◌<◌, ◌^◌, length, IfOk};
ghost use Rattle.std.specs.FinMap.{entries};
ghost use Rattle.ep_journal.specs.Entries.{journals_of};
ghost use Rattle.ep_journal.specs.Openings.{opens};
ghost use Rattle.ep_audit.specs.Verdicts.{IsVerdict, left_after};

use crate::closing::Closing;
use crate::contents::contents_of;
use crate::happening::Happening;
use crate::in_order::merged;
use crate::summary::Summary;
use ep_base::{Decree, InstanceId, ReplicaId};
use ep_exec::Contents;
use ep_journal::Journals;
use std::alloc::{AllocError, Global};

/// What the journals of a cluster say.
#[derive(Drop)]
pub struct Verdict {
    /// All entries, each as its replica with its number, by stamp and replica.
    pub schedule: Vec<(ReplicaId, u32)>,
    /// All that is committed, no-ops too, in rising order of instances.
    pub committed: Vec<(InstanceId, Decree)>,
    /// The commands that were executed, each once, in the order of first executions, with their replies.
    pub history: Vec<Happening>,
    /// The first seal of the history, with the least stamp of an entry that executes it; none where the history has no seal.
    pub closing: Option<Closing>,
}

impl Verdict {
    /// What the journals say; where several commit in an instance, what the least of these replicas commits.
    ///
    /// Each reply is what the instance's first execution gave: one map's reply to the history, from the journals' opening on, where the journals match,
    /// which an audit finds out.
    pub fn of(alloc: Global, journals: &Journals) -> Result<Verdict, AllocError>
        ensures { IfOk result (λ v. IsVerdict (opens journals.now.opening) journals.now.faults (journals_of journals.now) v) }
    {
        let schedule = merged(alloc, true, journals)?;
        let Summary {
            committed,
            history,
            closing,
        } = Summary::of(alloc, journals)?;
        Ok(Verdict {
            schedule,
            committed,
            history,
            closing,
        })
    }

    /// What the keys have after all of the history, from these journals' opening on. What comes after a seal changes nothing. A report counts the
    /// keys in 32 bits: more count as out of memory.
    pub fn contents(&self, alloc: Global, journals: &Journals) -> Result<Contents, AllocError>
        ensures value { IfOk result (λ m. m ≡ left_after (opens journals.now.opening) self.now) }
        ensures few { IfOk result (λ m. length (entries m) < 2 ^ 32) }
    {
        contents_of(alloc, journals.opening(), &self.history)
    }
}
