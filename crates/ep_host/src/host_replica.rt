//! A replica of a host, behind its lock.

ghost use Rattle.std.specs.Prelude.{◌≡◌};
ghost use Rattle.ep_host.specs.Asking.{IsKept};
ghost use Rattle.ep_host.specs.Starts.{one_start};
ghost use Rattle.ep_replica.specs.Kept.{start_of};

use crate::frames_out::{FramesOut, sent_last};
use crate::host_frame::{HostFrame, frame_in, only_of};
use crate::start::Start;
use crate::tended::Tended;
use crate::tending::tend;
use ep_base::{Command, InstanceId, ReplicaId};
use ep_journal::{Event, Journal, StepFault};
use ep_replica::{Proposal, Replica};
use ep_rules::Receipt;
use std::alloc::{AllocError, Global};
use std::marker::PhantomData;

/// A replica that starts as all of its host do, by its type. So whoever takes its lock knows that, and what is said of it is said of such a replica.
#[derive(Drop)]
pub struct HostReplica<S: Start> {
    replica: Replica,
    of: PhantomData<S>,
    ghost start: { start_of replica ≡ S.start } by { one_start _ _ },
}

/// What a replica is: a law, which costs nothing.
fn know(replica: &Replica)
    ensures { IsKept (start_of replica.now) replica.now }
{
    // Nothing is done with these: that the entries are a journal, with an opening of its version, is known by asking for them.
    let journal = replica.journal();
    let _run = journal.entries();
    let _opening = journal.opening();
}

impl<S: Start> HostReplica<S> {
    ghost use Rattle.std.specs.Prelude.{◌≡◌, ◌++◌, ◌∷◌, [], ℕ, List, Option, Some, None, IfOk, IfSome, IfErr, OnOk, OnErr};
    ghost use Rattle.ep_journal.specs.Entries.{entries_of};
    ghost use Rattle.ep_journal.specs.declared.entry.Entry.{Entry};
    ghost use Rattle.ep_journal.specs.declared.event.Event.TheVariants.{Propose};
    ghost use Rattle.ep_replica.specs.Applied.{Applied};
    ghost use Rattle.ep_replica.specs.Kept.{start_of};
    ghost use Rattle.ep_replica.specs.Pending.{Submits};
    ghost use Rattle.ep_replica.specs.Receipts.{outcome_of, receipts_after};
    ghost use Rattle.ep_host.specs.Asking.{AreReported, IsTaken, IsSubmitted, IsDeclinedThere, IsPumped, IsOutcome, turn_of};
    ghost use Rattle.ep_host.specs.HostFrames.{AreHostFrames, IsOnly};
    ghost use Rattle.ep_host.specs.Sent.{IsCopied};
    ghost use Rattle.ep_host.specs.Tending.{Tends};

    /// The replica, which starts so.
    pub fn new(replica: Replica) -> HostReplica<S>
        requires { start_of replica ≡ S.start }
        ensures { result.replica ≡ replica }
    {
        HostReplica {
            replica,
            of: PhantomData,
        }
    }

    /// The receipt of the instance's outcome here.
    pub fn outcome(
        &self,
        alloc: Global,
        instance: InstanceId,
    ) -> Result<Option<Receipt>, AllocError>
        ensures reported { IfOk result (λ o. IfSome o (IsOutcome S.start instance)) }
        ensures exact { IfOk result (λ o. o ≡ outcome_of self.now.replica.me (entries_of self.now.replica.entries) instance) }
    {
        know(&self.replica);
        match self.replica.outcome(instance) {
            Some(view) => Ok(Some(view.to_receipt(alloc)?)),
            None => Ok(None),
        }
    }

    /// The receipts that the entries after this one give.
    pub fn receipts_after(&self, alloc: Global, entry: u32) -> Result<Vec<Receipt>, AllocError>
        ensures reported { IfOk result (λ receipts. AreReported S.start entry receipts.items) }
        ensures exact { IfOk result (λ receipts. receipts.items ≡ receipts_after self.now.replica.me entry (entries_of self.now.replica.entries)) }
    {
        know(&self.replica);
        self.replica.receipts_after(alloc, entry)
    }

    /// The replica takes a proposal. Answers the instance that it is proposed as.
    pub fn submit(
        &mut self,
        client: u32,
        request: u32,
        command: Command,
        seen: u64,
    ) -> Result<InstanceId, StepFault>
        ensures ok { IfOk result (IsSubmitted S.start (Propose client request command seen None)) }
        ensures declined { IfErr result (IsDeclinedThere S.start (Propose client request command seen None)) }
        ensures exact { IfOk result (λ i. Submits self.old.replica (Propose client request command seen None) i self.new.replica) }
        ensures same { OnErr result (self.new.replica ≡ self.old.replica) }
    {
        know(&self.replica);
        self.replica.submit(client, request, command, seen)
    }

    /// The same; the replica spares this other one, in the place of the usual one.
    pub fn submit_sparing(
        &mut self,
        proposal: Proposal,
        command: Command,
        spared: ReplicaId,
    ) -> Result<InstanceId, StepFault>
        ensures ok { IfOk result (IsSubmitted S.start (Propose proposal.client proposal.request command proposal.seen (Some spared))) }
        ensures declined { IfErr result (IsDeclinedThere S.start (Propose proposal.client proposal.request command proposal.seen (Some spared))) }
        ensures exact { IfOk result (λ i. Submits self.old.replica (Propose proposal.client proposal.request command proposal.seen (Some spared)) i self.new.replica) }
        ensures same { OnErr result (self.new.replica ≡ self.old.replica) }
    {
        know(&self.replica);
        self.replica.submit_sparing(proposal, command, spared)
    }

    /// The frames that its last entry sends.
    pub fn sent_last(&self, alloc: Global) -> FramesOut
        ensures copied { (before : List Entry) (e : Entry) → self.now.replica.entries ≡ before ++ e ∷ [] → IsCopied e.frames result.frames.items result.lost }
        ensures version { AreHostFrames result.frames.items }
    {
        sent_last(alloc, &self.replica)
    }

    /// The replica takes the event, and what its entry sends is to be sent.
    pub fn direct(&mut self, alloc: Global, event: Event) -> Result<FramesOut, StepFault>
        ensures ok { OnOk result (IsTaken S.start event) }
        ensures version { IfOk result (λ s. AreHostFrames s.frames.items) }
        ensures declined { IfErr result (IsDeclinedThere S.start event) }
        ensures exact { OnOk result ((e : Entry) × Applied self.old.replica event e self.new.replica) }
        ensures frames { IfOk result (λ s. (before : List Entry) (e : Entry) → self.new.replica.entries ≡ before ++ e ∷ [] → IsCopied e.frames s.frames.items s.lost) }
        ensures same { OnErr result (self.new.replica ≡ self.old.replica) }
    {
        know(&self.replica);
        self.replica.take(event)?;
        Ok(sent_last(alloc, &self.replica))
    }

    /// The replica is tended, with the frame where it is of its version. Another one is let go; an inbox holds none.
    pub fn pump(&mut self, alloc: Global, frame: Option<HostFrame>) -> Tended
        ensures pumped { IsPumped S.start (turn_of result.moved) }
        ensures exact { (given : Option (List ℕ)) × IsOnly self.old.replica.version frame given × Tends given self.old.replica self.new.replica result }
        ensures version { AreHostFrames result.frames.items }
    {
        know(&self.replica);
        let given = only_of(self.replica.version(), frame_in(frame));
        tend(alloc, &mut self.replica, given)
    }

    /// Its journal, which starts so.
    pub fn into_journal(self) -> Journal
        ensures { start_of result ≡ S.start }
    {
        let HostReplica { replica, of: _ } = self;
        replica.into_journal()
    }
}
