//! A client's command, and the instance that it is proposed as.

ghost use Rattle.std.specs.Prelude.{◌≡◌, ◌∷◌, ◌++◌, [], List};
ghost use Rattle.ep_journal.specs.declared.entry.Entry.{Entry as Written};
ghost use Rattle.ep_journal.specs.Events.{first_named};

use crate::proposal::Proposal;
use crate::replica::Replica;
use ep_base::{Command, InstanceId, ReplicaId};
use ep_journal::{Entry, Event, StepFault};

/// The instance that the last entry's first frame is about, if it sends one.
fn named_last(entries: &[Entry]) -> Option<InstanceId>
    ensures { (before : List Written) (e : Written) → entries.now ≡ before ++ e ∷ [] → result ≡ first_named e.frames }
{
    let entry = entries.last()?;
    let frame = entry.frames.as_slice().first()?;
    Some(frame.instance())
}

impl Replica {
    ghost use Rattle.std.specs.Prelude.{◌≡◌, Some, None, IfOk, IfErr, OnErr};
    ghost use Rattle.ep_journal.specs.declared.event.Event.TheVariants.{Propose};
    ghost use Rattle.ep_replica.specs.Applied.{IsDeclined};
    ghost use Rattle.ep_replica.specs.Pending.{Submits};

    /// Proposes a client's command: one step and one entry more, and the instance in which it is proposed. Whatever is refused leaves the replica
    /// as it was.
    pub fn submit(
        &mut self,
        client: u32,
        request: u32,
        command: Command,
        seen: u64,
    ) -> Result<InstanceId, StepFault>
        ensures ok { IfOk result (λ i. Submits self.old (Propose client request command seen None) i self.new) }
        ensures refused { IfErr result (λ fault. IsDeclined self.old (Propose client request command seen None) fault) }
        ensures err { OnErr result (self.new ≡ self.old) }
    {
        let proposal = Proposal {
            client,
            request,
            seen,
        };
        self.submit_named(proposal, command, None)
    }

    /// The same; the fast quorum lacks this replica, in place of the one just below. `OutOfRange` if that is this replica itself or none of the
    /// cluster, and in versions 1 and 2.
    pub fn submit_sparing(
        &mut self,
        proposal: Proposal,
        command: Command,
        spared: ReplicaId,
    ) -> Result<InstanceId, StepFault>
        ensures ok { IfOk result (λ i. Submits self.old (Propose proposal.client proposal.request command proposal.seen (Some spared)) i self.new) }
        ensures refused { IfErr result (λ fault. IsDeclined self.old (Propose proposal.client proposal.request command proposal.seen (Some spared)) fault) }
        ensures err { OnErr result (self.new ≡ self.old) }
    {
        self.submit_named(proposal, command, Some(spared))
    }

    fn submit_named(
        &mut self,
        proposal: Proposal,
        command: Command,
        named: Option<ReplicaId>,
    ) -> Result<InstanceId, StepFault>
        ensures ok { IfOk result (λ i. Submits self.old (Propose proposal.client proposal.request command proposal.seen named) i self.new) }
        ensures refused { IfErr result (λ fault. IsDeclined self.old (Propose proposal.client proposal.request command proposal.seen named) fault) }
        ensures err { OnErr result (self.new ≡ self.old) }
    {
        let _faults = self.size().faults();
        self.take(Event::Propose {
            client: proposal.client,
            request: proposal.request,
            command,
            seen: proposal.seen,
            spared: named,
        })?;
        Ok(named_last(self.journal().entries()).unwrap())
    }
}
