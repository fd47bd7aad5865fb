//! Commit.

ghost use Rattle.std.specs.Prelude.{◌≡◌, Some, IsTrue, IfOk, IfErr};
ghost use Rattle.ep_phase.specs.declared.decision_fault.DecisionFault.TheVariants.{Memory};
ghost use Rattle.ep_frame.specs.declared.kind.Kind.TheVariants as kind;
ghost use Rattle.ep_space.specs.Settled.{settled};
ghost use Rattle.ep_rules.specs.Phases as rules;
ghost use Rattle.ep_rules.specs.Phases.{with_commit};
ghost use Rattle.ep_phase.specs.Changes.{change_of};
ghost use Rattle.ep_phase.specs.InstanceViews.{InstanceView, record_of};
ghost use Rattle.ep_frame.specs.Meaning.{kind_at, decree_at};

use crate::change::Change;
use crate::decision_fault::DecisionFault;
use crate::instance_view::InstanceView;
use crate::lead_change::LeadChange;
use crate::receivers::Receivers;
use crate::recorded::Recorded;
use crate::sending::{Sending, What};
use ep_base::Decree;
use ep_frame::FrameView;
use std::alloc::Global;

/// Commits the decree as the leader: both ballots stay, the instance is led no longer, and all others are informed
/// (EPaxos, figure 2, commit phase).
pub fn begin_commit(decree: Decree) -> Change
    ensures { (k : InstanceView) → change_of k result ≡ rules.commit_phase k.faults k.instance k.me decree (record_of k) }
{
    let out = Sending {
        to: Receivers::Others,
        what: What::Commit,
    };
    Change::of(Recorded::Commits(decree), LeadChange::Ends, Some(out))
}

/// Commits what the leader itself voted for, if it voted, as `begin_commit` does.
pub(crate) fn commit_own(cell: &InstanceView<'_>) -> Change
    ensures { change_of cell.now result ≡ rules.commit_own cell.now.faults cell.now.instance cell.now.me (record_of cell.now) (record_of cell.now).vote }
{
    if cell.vote().is_none() {
        return Change::nothing();
    }
    let out = Sending {
        to: Receivers::Others,
        what: What::Commit,
    };
    Change::of(Recorded::Settles, LeadChange::Ends, Some(out))
}

/// Handles a Commit: where the instance is not committed yet, the decree is, both ballots stay, and the instance is led no longer.
pub fn on_commit(
    alloc: Global,
    cell: &InstanceView<'_>,
    frame: &FrameView<'_>,
) -> Result<Change, DecisionFault>
    requires kind { kind_at frame.now ≡ kind.Commit }
    ensures ok { IfOk result (λ ch. change_of cell.now ch ≡ rules.on_commit cell.now.instance (decree_at frame.now) (record_of cell.now)) }
    ensures refused { IfErr result (λ e. e ≡ Memory) }
{
    if cell.is_committed() {
        return Ok(Change::nothing());
    }
    if has_voted_for(cell, frame) {
        return Ok(Change::of(Recorded::Settles, LeadChange::Ends, None));
    }
    let decree = frame.to_decree(alloc)?;
    Ok(Change::of(Recorded::Commits(decree), LeadChange::Ends, None))
}

/// Whether the replica's last vote is for the frame's decree.
#[inline(always)]
fn has_voted_for(cell: &InstanceView<'_>, frame: &FrameView<'_>) -> bool
    requires kind { kind_at frame.now ≡ kind.Commit }
    ensures { IsTrue result → settled cell.now.instance (record_of cell.now) (record_of cell.now).vote ≡ Some (with_commit cell.now.instance (record_of cell.now) (decree_at frame.now)) }
{
    match cell.vote() {
        None => false,
        Some(vote) => frame.has_decree(&vote.decree),
    }
}
