//! The accept phase.

ghost use Rattle.std.specs.Prelude.{◌≡◌, Some, IfOk, IfErr};
ghost use Rattle.ep_rules.specs.Answers.{with_answer};
ghost use Rattle.ep_rules.specs.Phases as rules;
ghost use Rattle.ep_rules.specs.declared.led_instance.LedInstance.TheVariants.{Accepting};
ghost use Rattle.ep_phase.specs.Changes.{change_of};
ghost use Rattle.ep_phase.specs.InstanceViews.{InstanceView, record_of};
ghost use Rattle.ep_frame.specs.Meaning.{kind_at, sender_at, ballot_at, decree_at};
ghost use Rattle.ep_phase.specs.declared.decision_fault.DecisionFault.TheVariants.{Memory};
ghost use Rattle.ep_frame.specs.declared.kind.Kind.TheVariants as kind;

use crate::change::Change;
use crate::commit::commit_own;
use crate::counting::others_with;
use crate::decision_fault::DecisionFault;
use crate::instance_view::InstanceView;
use crate::lead_change::LeadChange;
use crate::propose::is_usable;
use crate::receivers::Receivers;
use crate::recorded::Recorded;
use crate::sending::{Sending, What};
use ep_base::{Ballot, Decree, ReplicaId};
use ep_frame::FrameView;
use ep_rules::{Answers, LedInstance};
use std::alloc::Global;

/// Begins the accept phase of the ballot: the leader accepts the decree, and asks all others to (EPaxos, figure 2; Sutra, 2019, for the two ballots).
pub fn begin_accept(alloc: Global, ballot: Ballot, decree: Decree) -> Change
    ensures { (k : InstanceView) → change_of k result ≡ rules.accept_phase k.faults k.instance k.me ballot decree }
{
    let out = Sending {
        to: Receivers::Others,
        what: What::Accept(ballot),
    };
    let led = LedInstance::Accepting(ballot, Answers::new(alloc));
    Change::of(
        Recorded::Accepts(ballot, decree),
        LeadChange::Leads(led),
        Some(out),
    )
}

/// Handles an Accept: below the promised ballot it is refused; where the instance is committed, or accepted at the ballot, nothing happens;
/// else the decree is accepted.
pub fn on_accept(
    alloc: Global,
    cell: &InstanceView<'_>,
    frame: &FrameView<'_>,
) -> Result<Change, DecisionFault>
    requires kind { kind_at frame.now ≡ kind.Accept }
    ensures ok { IfOk result (λ ch. change_of cell.now ch ≡ rules.on_accept cell.now.instance (sender_at frame.now) (ballot_at frame.now) (decree_at frame.now) (record_of cell.now)) }
    ensures refused { IfErr result (λ e. e ≡ Memory) }
{
    let ballot = frame.ballot();
    let promised = cell.promised();
    if ballot < promised {
        return Ok(Change::refused(frame.from(), ballot, promised));
    }
    if cell.is_settled_at(ballot) {
        return Ok(Change::nothing());
    }
    let decree = frame.to_decree(alloc)?;
    let out = Sending {
        to: Receivers::One(frame.from()),
        what: What::AcceptOk(ballot),
    };
    Ok(Change::of(
        Recorded::Accepts(ballot, decree),
        LeadChange::Stays,
        Some(out),
    ))
}

/// Handles an AcceptOK: it counts while this replica leads the ballot in the accept phase, has promised no other ballot and has not committed,
/// once for each replica. With as many others as may fail, the leader commits. It takes no memory.
pub fn on_accept_ok(cell: &InstanceView<'_>, from: ReplicaId, ballot: Ballot) -> Change
    ensures { change_of cell.now result ≡ rules.on_accept_ok cell.now.faults cell.now.instance cell.now.me from ballot (record_of cell.now) cell.now.led }
{
    let Some(LedInstance::Accepting(led, answers)) = cell.led() else {
        return Change::nothing();
    };
    if answers.get(from.index()).is_some() {
        return Change::nothing();
    }
    if !is_usable(cell, ballot, *led) {
        return Change::nothing();
    }
    count_accept_ok(cell, from, ballot, answers)
}

fn count_accept_ok(
    cell: &InstanceView<'_>,
    from: ReplicaId,
    ballot: Ballot,
    answers: &Answers<()>,
) -> Change
    requires led { cell.now.led ≡ Some (Accepting ballot answers.now) }
    ensures { change_of cell.now result ≡ rules.count_accept_ok cell.now.faults cell.now.instance cell.now.me ballot (with_answer answers.now from tt) (record_of cell.now) }
{
    let size = cell.size();
    if size.faults() <= others_with(size, cell.me(), answers, from) {
        return commit_own(cell);
    }
    Change::of(Recorded::Stays, LeadChange::Accepted(from), None)
}
