//! Receipts, borrowed.

ghost use Rattle.std.specs.Prelude.{◌≡◌, IfOk};
ghost use Rattle.ep_replica.specs.FirstExecutions.{reported_at};

use crate::execution_place::ExecutionPlace;
use crate::proposal::Proposal;
use ep_base::{Answer, InstanceId, ReplicaId, Stamp};
use ep_journal::Entry;
use ep_rules::Receipt;
use std::alloc::{AllocError, Global};
use std::marker::Model;

/// What a client is answered of its command, lent by the replica that executed it.
#[derive(Drop)]
pub struct ReceiptView<'a> {
    proposal: Proposal,
    instance: InstanceId,
    replica: ReplicaId,
    entry: u32,
    stamp: Stamp,
    answer: &'a Answer,
}

impl<'a> Model for ReceiptView<'a> {
    ghost use Rattle.ep_rules.specs.declared.receipt.Receipt.{Receipt};

    ghost Value = { Receipt };

    ghost view = { λ v. record { client = v.proposal.client; request = v.proposal.request; instance = v.instance; seen = v.proposal.seen; replica = v.replica; entry = v.entry; stamp = v.stamp; answer = v.answer.now } };
}

impl<'a> ReceiptView<'a> {
    /// What the execution answered.
    pub fn answer(&self) -> &'a Answer
        ensures { result.now ≡ self.now.answer }
    {
        self.answer
    }

    /// The receipt itself.
    pub fn to_receipt(&self, alloc: Global) -> Result<Receipt, AllocError>
        ensures { IfOk result (λ receipt. receipt ≡ self.now) }
    {
        let answer = self.answer.copy(alloc)?;
        Ok(Receipt {
            client: self.proposal.client,
            request: self.proposal.request,
            instance: self.instance,
            seen: self.proposal.seen,
            replica: self.replica,
            entry: self.entry,
            stamp: self.stamp.ticks(),
            answer,
        })
    }
}

/// The receipt for this proposal of the replica, executed at this spot as this instance; none if nothing was.
pub(crate) fn reported_at<'a>(
    replica: ReplicaId,
    instance: InstanceId,
    proposal: Proposal,
    entries: &'a [Entry],
    spot: ExecutionPlace,
) -> Option<ReceiptView<'a>>
    ensures { result ≡ reported_at replica instance proposal entries.now spot }
{
    let entry = entries.get(spot.entry)?;
    let (_, answer) = entry.done.as_slice().get(spot.place)?;
    Some(ReceiptView {
        proposal,
        instance,
        replica,
        entry: entry.number,
        stamp: entry.stamp,
        answer,
    })
}
