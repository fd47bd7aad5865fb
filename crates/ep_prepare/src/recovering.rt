//! How a recovery begins.

ghost use Rattle.std.specs.Prelude.{◌≡◌, ◌+◌, ◌<◌, ◌≤◌, max, Ok, IfOk, IfErr, IfSome, IfNone};
ghost use Rattle.ep_base.specs.Ballots.{ballot_of, counter_of, highest_counter};
ghost use Rattle.ep_rules.specs.Recovery as rules;
ghost use Rattle.ep_phase.specs.Changes.{change_of};
ghost use Rattle.ep_phase.specs.InstanceViews.{record_of};
ghost use Rattle.ep_phase.specs.Refused.{IsRefused};

use crate::own_vote::own_vote;
use ep_base::{Ballot, ReplicaId};
use ep_phase::{
    Change, DecisionFault, InstanceView, LeadChange, Receivers, Recorded, Sending, What,
};
use ep_rules::{Answers, LedInstance};
use std::alloc::Global;

/// Begins to recover the instance: the replica joins a ballot of its own above what it promised and all that it has heard of,
/// takes its own last vote as the first answer, and asks all others for theirs. `AlreadyCommitted` where it has committed,
/// `BallotsExhausted` where the ballot's counter would pass 60,000.
pub fn recover(alloc: Global, cell: &InstanceView<'_>) -> Result<Change, DecisionFault>
    ensures ok { IfOk result (λ ch. rules.recover cell.now.faults cell.now.instance cell.now.me (record_of cell.now) cell.now.reported ≡ Ok (change_of cell.now ch)) }
    ensures refused { IfErr result (λ e. IsRefused (rules.recover cell.now.faults cell.now.instance cell.now.me (record_of cell.now) cell.now.reported) e) }
{
    if cell.is_committed() {
        return Err(DecisionFault::AlreadyCommitted);
    }
    let me = cell.me();
    let Some(ballot) = next_ballot(cell.promised(), cell.reported(), me) else {
        return Err(DecisionFault::BallotsExhausted);
    };
    let own = own_vote(alloc, cell)?;
    let answers = Answers::new(alloc).with(alloc, me, own)?;
    let out = Sending {
        to: Receivers::Others,
        what: What::Prepare(ballot),
    };
    Ok(Change::of(
        Recorded::Joins(ballot),
        LeadChange::Leads(LedInstance::Preparing(ballot, answers)),
        Some(out),
    ))
}

/// This replica's ballot above the promised one and the counter that a Nack named, if there is one.
fn next_ballot(promised: Ballot, reported: u16, me: ReplicaId) -> Option<Ballot>
    ensures next { IfSome result (λ b. (b ≡ ballot_of (1 + max (counter_of promised) reported) me) × (1 + max (counter_of promised) reported ≤ highest_counter)) }
    ensures none { IfNone result (highest_counter < 1 + max (counter_of promised) reported) }
{
    let greater = promised.counter().max(reported);
    if greater >= 60_000 {
        return None;
    }
    Ballot::new(1 + greater, me).ok()
}
