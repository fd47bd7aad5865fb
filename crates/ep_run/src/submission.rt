//! What a line of a section has its replica do, as it is submitted to a host behind locks.

ghost use Rattle.std.specs.Prelude.{◌≡◌};
ghost use Rattle.ep_run.specs.Locks.{cause_of as named};

use crate::asking::asked_by;
use ep_base::ReplicaId;
use ep_host::{Act, HostFault, LockHost, Start, Task};
use ep_journal::{Refusal, StepFault};
use ep_replay::Clients;
use ep_replica::Proposal;
use ep_script::AgendaLine;
use std::alloc::{AllocError, Global};
use std::sync::{Mutex, Wait};

/// What a line of a section has its replica do.
#[derive(Drop)]
pub(crate) struct Submission {
    /// The line's number.
    pub line: u32,
    /// The replica that does it.
    pub replica: ReplicaId,
    task: Task,
    /// Why the replica refused it, if it did.
    refusal: Mutex<Option<Refusal>>,
}

impl Submission {
    ghost use Rattle.std.specs.Prelude.{◌≡◌, ℕ, List, IfOk, OnOk};
    ghost use Rattle.ep_replay.specs.Tables.{AreCounted};
    ghost use Rattle.ep_rules.specs.declared.receipt.Receipt.{Receipt};
    ghost use Rattle.ep_run.specs.Asking.{proposers_after, IsSubmission};

    /// What the line asks for. A proposal counts as one request more of its client.
    pub(crate) fn new(
        alloc: Global,
        clients: &mut Clients,
        line: u32,
        asked: &AgendaLine,
    ) -> Result<Submission, AllocError>
        ensures task { IfOk result (λ t. (ps : List ℕ) (ts : List Receipt) → AreCounted clients.old ps ts → IsSubmission ps ts (line, asked.now) t) }
        ensures counted { OnOk result ((ps : List ℕ) (ts : List Receipt) → AreCounted clients.old ps ts → AreCounted clients.new (proposers_after ps asked.now) ts) }
    {
        let (replica, task) = asked_by(alloc, clients, asked)?;
        Ok(Submission {
            line,
            replica,
            task,
            refusal: Mutex::new(None),
        })
    }

    /// Has the replica do it, and keeps why it refused.
    pub(crate) fn run<S: Start, R: Wait>(&self, rt: &R, alloc: Global, host: &LockHost<S>) {
        if let Err(fault) = self.submit(rt, alloc, host) {
            *self.refusal.lock(rt) = Some(cause_of(fault));
        }
    }

    fn submit<S: Start, R: Wait>(
        &self,
        rt: &R,
        alloc: Global,
        host: &LockHost<S>,
    ) -> Result<(), HostFault> {
        match &self.task {
            Task::Propose {
                client,
                request,
                command,
                seen,
                spared,
            } => {
                let command = command.copy(alloc)?;
                match spared {
                    None => {
                        host.submit(rt, self.replica, *client, *request, command, *seen)?;
                    }
                    Some(spared) => {
                        let proposal = Proposal {
                            client: *client,
                            request: *request,
                            seen: *seen,
                        };
                        host.submit_sparing(rt, self.replica, proposal, command, *spared)?;
                    }
                }
                Ok(())
            }
            Task::GiveUp(instance) => host.direct(rt, self.replica, Act::GiveUp(*instance)),
            Task::Recover(instance) => host.direct(rt, self.replica, Act::Recover(*instance)),
        }
    }

    /// Why the replica refused it, if it did.
    pub(crate) fn refusal<R: Wait>(&self, rt: &R) -> Option<Refusal> {
        *self.refusal.lock(rt)
    }
}

/// The cause as a report names it.
fn cause_of(fault: HostFault) -> Refusal
    ensures { result ≡ named fault }
{
    match fault {
        HostFault::Memory => Refusal::Step(StepFault::Memory),
        HostFault::OutOfRange => Refusal::Step(StepFault::OutOfRange),
        HostFault::Replica(fault) => Refusal::Step(fault),
    }
}
