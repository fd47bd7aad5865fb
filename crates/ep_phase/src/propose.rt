//! Phase 1.

ghost use Rattle.std.specs.Prelude.{◌≡◌, ◌≤◌, ◌<◌, ℕ, ◌+◌, Bool, [], Some, None, Ok, IfOk, IfErr, IsErr};
ghost use Rattle.ep_base.specs.Instances.{instance_of};
ghost use Rattle.ep_base.specs.declared.message.Message.TheVariants.{PreAccept};
ghost use Rattle.ep_base.specs.declared.vote.VoteStatus.TheVariants.{PreAccepted};
ghost use Rattle.ep_rules.specs.declared.led_instance.LedInstance.TheVariants.{Proposing};
ghost use Rattle.ep_rules.specs.Answers.{with_answer};
ghost use Rattle.ep_rules.specs.Cells as cells;
ghost use Rattle.ep_rules.specs.Cells.{voted};
ghost use Rattle.ep_rules.specs.InterferenceSet.{interference};
ghost use Rattle.ep_rules.specs.Phases as rules;
ghost use Rattle.ep_rules.specs.Recovery.{recover_with};
ghost use Rattle.ep_base.specs.Versions.{highest_in};
ghost use Rattle.ep_rules.specs.States.{free_number};
ghost use Rattle.ep_phase.specs.Changes.{change_of, pre_accepted, to_receivers};
ghost use Rattle.ep_phase.specs.InstanceViews.{InstanceView, record_of};
ghost use Rattle.ep_phase.specs.Refused.{IsRefused};
ghost use Rattle.ep_frame.specs.Meaning.{kind_at, sender_at, ballot_at, attrs_at, decree_at};
ghost use Rattle.ep_phase.specs.declared.decision_fault.DecisionFault.TheVariants.{Memory};
ghost use Rattle.ep_frame.specs.declared.kind.Kind.TheVariants as kind;

use crate::accept::begin_accept;
use crate::change::Change;
use crate::commit::{begin_commit, commit_own};
use crate::counting::{all_equal, fast_answered, joined, joined_with, others, others_with};
use crate::decision_fault::DecisionFault;
use crate::instance_view::InstanceView;
use crate::lead_change::LeadChange;
use crate::receivers::Receivers;
use crate::recorded::Recorded;
use crate::sending::{Sending, What};
use ep_base::{Attrs, Ballot, Command, Decree, InstanceId, ReplicaId};
use ep_frame::FrameView;
use ep_rules::{Answers, LedInstance};
use ep_space::{Space, SpaceFull};
use std::alloc::{AllocError, Global};

/// The instance that this replica proposes in next: of those that it leads and of which nothing is recorded the one of the least number.
/// `SpaceFull` where there is none up to the highest number of the version.
pub fn next_instance(space: &Space, me: ReplicaId) -> Result<InstanceId, SpaceFull>
    ensures ok { IfOk result (λ i. (n : ℕ) × (free_number space.now.records me ≡ Some n) × (n < highest_in space.now.version) × (i ≡ instance_of me (n + 1))) }
    ensures full { IsErr result → (n : ℕ) → free_number space.now.records me ≡ Some n → highest_in space.now.version ≤ n }
{
    let number = space.free_number(me)?;
    Ok(InstanceId::new(me, number).unwrap())
}

/// Proposes the command as an instance that this replica leads and of which nothing is recorded (EPaxos, figure 2, phase 1):
/// it pre-accepts the command with its interference set's attributes at the default ballot, and asks all others but the spared one.
/// `SeqExhausted` where the sequence number would pass 1,000,000.
pub fn start(
    alloc: Global,
    cell: &InstanceView<'_>,
    spared: ReplicaId,
    command: &Command,
) -> Result<Change, DecisionFault>
    ensures ok { IfOk result (λ ch. rules.propose cell.now.faults cell.now.instance spared command.now (interference cell.now.records cell.now.instance command.now) ≡ Ok (change_of cell.now ch)) }
    ensures refused { IfErr result (λ e. IsRefused (rules.propose cell.now.faults cell.now.instance spared command.now (interference cell.now.records cell.now.instance command.now)) e) }
{
    let attrs = own_attrs(alloc, cell, command)?;
    let ballot = Ballot::default_of(cell.id().replica());
    let command = command.copy(alloc)?;
    let decree = Decree { command, attrs };
    Ok(first_phase(alloc, Receivers::FastQuorum(spared), ballot, spared, decree))
}

/// Begins phase 1 of a recovery ballot (EPaxos, figure 3): this replica pre-accepts the command with its interference set's attributes, and asks all others.
/// `SeqExhausted` where the sequence number would pass 1,000,000.
pub fn start_at(
    alloc: Global,
    cell: &InstanceView<'_>,
    ballot: Ballot,
    command: Command,
) -> Result<Change, DecisionFault>
    ensures ok { IfOk result (λ ch. recover_with cell.now.faults cell.now.instance cell.now.me ballot command (interference cell.now.records cell.now.instance command) ≡ Ok (change_of cell.now ch)) }
    ensures refused { IfErr result (λ e. IsRefused (recover_with cell.now.faults cell.now.instance cell.now.me ballot command (interference cell.now.records cell.now.instance command)) e) }
{
    let attrs = own_attrs(alloc, cell, &command)?;
    let decree = Decree { command, attrs };
    Ok(first_phase(alloc, Receivers::Others, ballot, cell.me(), decree))
}

/// Phase 1 at the ballot: the leader pre-accepts the decree itself, and asks these to; it keeps which replica is spared.
fn first_phase(
    alloc: Global,
    to: Receivers,
    ballot: Ballot,
    spared: ReplicaId,
    decree: Decree,
) -> Change
    ensures { (k : InstanceView) → change_of k result ≡ record { entry = Some (voted ballot PreAccepted decree); led = Some (Some (Proposing ballot spared [])); reported = None; out = to_receivers k.faults k.me k.instance to (PreAccept k.instance ballot decree) } }
{
    let out = Sending {
        to,
        what: What::PreAccept(ballot),
    };
    let led = LedInstance::Proposing(ballot, spared, Answers::new(alloc));
    Change::of(
        Recorded::PreAccepts(ballot, decree),
        LeadChange::Leads(led),
        Some(out),
    )
}

/// Handles a PreAccept: below the promised ballot it is refused; where the instance is committed, or voted in at the ballot, nothing happens;
/// else the command is pre-accepted with the received attributes joined with those of its interference set here.
/// `SeqExhausted` where the sequence number of that set would pass 1,000,000.
pub fn on_pre_accept(
    alloc: Global,
    cell: &InstanceView<'_>,
    frame: &FrameView<'_>,
) -> Result<Change, DecisionFault>
    requires kind { kind_at frame.now ≡ kind.PreAccept }
    ensures ok { IfOk result (λ ch. rules.on_pre_accept cell.now.instance (sender_at frame.now) (ballot_at frame.now) (decree_at frame.now) (interference cell.now.records cell.now.instance (decree_at frame.now).command) (record_of cell.now) ≡ Ok (change_of cell.now ch)) }
    ensures refused { IfErr result (λ e. IsRefused (rules.on_pre_accept cell.now.instance (sender_at frame.now) (ballot_at frame.now) (decree_at frame.now) (interference cell.now.records cell.now.instance (decree_at frame.now).command) (record_of cell.now)) e) }
{
    let ballot = frame.ballot();
    let promised = cell.promised();
    if ballot < promised {
        return Ok(Change::refused(frame.from(), ballot, promised));
    }
    if cell.is_done_at(ballot) {
        return Ok(Change::nothing());
    }
    pre_accept(alloc, cell, frame)
}

/// Pre-accepts the frame's command at its ballot.
#[inline(always)]
fn pre_accept(
    alloc: Global,
    cell: &InstanceView<'_>,
    frame: &FrameView<'_>,
) -> Result<Change, DecisionFault>
    requires kind { kind_at frame.now ≡ kind.PreAccept }
    ensures ok { IfOk result (λ ch. pre_accepted cell.now.instance (sender_at frame.now) (ballot_at frame.now) (decree_at frame.now) (interference cell.now.records cell.now.instance (decree_at frame.now).command) ≡ Ok (change_of cell.now ch)) }
    ensures refused { IfErr result (λ e. IsRefused (pre_accepted cell.now.instance (sender_at frame.now) (ballot_at frame.now) (decree_at frame.now) (interference cell.now.records cell.now.instance (decree_at frame.now).command)) e) }
{
    let ballot = frame.ballot();
    let command = frame.to_command()?;
    let mut attrs = own_attrs(alloc, cell, &command)?;
    frame.join_to(alloc, &mut attrs)?;
    let out = Sending {
        to: Receivers::One(frame.from()),
        what: What::PreAcceptOk(ballot),
    };
    Ok(Change::of(
        Recorded::PreAccepts(ballot, Decree { command, attrs }),
        LeadChange::Stays,
        Some(out),
    ))
}

/// Handles a PreAcceptOK: it counts while this replica leads the ballot in phase 1, has promised no other ballot and has not committed, once for each replica.
/// At the default ballot, once all others of the fast quorum have answered, the leader commits where all answers are equal, and else begins the accept phase;
/// at a recovery ballot it does so once as many others have answered as may fail.
pub fn on_pre_accept_ok(
    alloc: Global,
    cell: &InstanceView<'_>,
    frame: &FrameView<'_>,
) -> Result<Change, DecisionFault>
    requires kind { kind_at frame.now ≡ kind.PreAcceptOk }
    ensures ok { IfOk result (λ ch. change_of cell.now ch ≡ rules.on_pre_accept_ok cell.now.faults cell.now.instance cell.now.me (sender_at frame.now) (ballot_at frame.now) (attrs_at frame.now) (record_of cell.now) cell.now.led) }
    ensures refused { IfErr result (λ e. e ≡ Memory) }
{
    let Some(LedInstance::Proposing(led, spared, answers)) = cell.led() else {
        return Ok(Change::nothing());
    };
    if answers.get(frame.from().index()).is_some() {
        return Ok(Change::nothing());
    }
    if !is_usable(cell, frame.ballot(), *led) {
        return Ok(Change::nothing());
    }
    count_pre_accept_ok(alloc, cell, frame, *spared, answers)
}

/// Gives up waiting for the fast quorum: with as many answers of others as may fail, the leader begins the accept phase at the default ballot.
/// `NotLeading` where this replica does not lead that ballot in phase 1, has promised another ballot or has committed; `TooFewAnswers` with fewer answers.
pub fn give_up(alloc: Global, cell: &InstanceView<'_>) -> Result<Change, DecisionFault>
    ensures ok { IfOk result (λ ch. rules.give_up cell.now.faults cell.now.instance cell.now.me (record_of cell.now) cell.now.led ≡ Ok (change_of cell.now ch)) }
    ensures refused { IfErr result (λ e. IsRefused (rules.give_up cell.now.faults cell.now.instance cell.now.me (record_of cell.now) cell.now.led) e) }
{
    let Some(LedInstance::Proposing(ballot, _, answers)) = cell.led() else {
        return Err(DecisionFault::NotLeading);
    };
    if !is_usable(cell, Ballot::default_of(cell.id().replica()), *ballot) {
        return Err(DecisionFault::NotLeading);
    }
    let size = cell.size();
    if others(size, cell.me(), answers) < size.faults() {
        return Err(DecisionFault::TooFewAnswers);
    }
    Ok(slow_path(alloc, cell, *ballot, answers)?)
}

/// Whether the leader of this ballot, who leads that one, may still use an answer: both are one ballot, it has promised no other,
/// and has not committed.
pub fn is_usable(cell: &InstanceView<'_>, ballot: Ballot, led: Ballot) -> bool
    ensures { result ≡ rules.is_usable ballot (record_of cell.now) led }
{
    led == ballot && cell.promised() == ballot && !cell.is_committed()
}

/// The attributes that the command's interference set gives it; a refusal is that of every rule that they limit.
#[inline(always)]
fn own_attrs(
    alloc: Global,
    cell: &InstanceView<'_>,
    command: &Command,
) -> Result<Attrs, DecisionFault>
    ensures ok { IfOk result (λ a. (a ≡ interference cell.now.records cell.now.instance command.now) × ((ch : cells.Change) → rules.limited a ch ≡ Ok ch)) }
    ensures refused { IfErr result (λ e. (ch : cells.Change) → IsRefused (rules.limited (interference cell.now.records cell.now.instance command.now) ch) e) }
{
    match cell.space().interference(alloc, command, cell.id()) {
        Ok(attrs) => Ok(attrs),
        Err(fault) => Err(fault.into()),
    }
}

#[inline(always)]
fn count_pre_accept_ok(
    alloc: Global,
    cell: &InstanceView<'_>,
    frame: &FrameView<'_>,
    spared: ReplicaId,
    answers: &Answers<Attrs>,
) -> Result<Change, DecisionFault>
    requires kind { kind_at frame.now ≡ kind.PreAcceptOk }
    requires led { cell.now.led ≡ Some (Proposing (ballot_at frame.now) spared answers.now) }
    ensures ok { IfOk result (λ ch. change_of cell.now ch ≡ rules.count_pre_accept_ok cell.now.faults cell.now.instance cell.now.me (ballot_at frame.now) spared (attrs_at frame.now) (with_answer answers.now (sender_at frame.now) (attrs_at frame.now)) (record_of cell.now)) }
    ensures refused { IfErr result (λ e. e ≡ Memory) }
{
    let size = cell.size();
    let leader = cell.id().replica();
    if frame.ballot() == Ballot::default_of(leader) {
        if !fast_answered(size, leader, spared, answers, frame.from()) {
            return one_more(alloc, cell, frame, spared, answers);
        }
        if all_equal(size, frame, answers) {
            return fast_path(alloc, cell, frame);
        }
        return slow_path_with(alloc, cell, frame, answers);
    }
    if size.faults() <= others_with(size, cell.me(), answers, frame.from()) {
        return slow_path_with(alloc, cell, frame, answers);
    }
    one_more(alloc, cell, frame, spared, answers)
}

/// The answer is kept, and no more.
#[inline(always)]
fn one_more(
    alloc: Global,
    cell: &InstanceView<'_>,
    frame: &FrameView<'_>,
    spared: ReplicaId,
    answers: &Answers<Attrs>,
) -> Result<Change, DecisionFault>
    requires kind { kind_at frame.now ≡ kind.PreAcceptOk }
    requires led { cell.now.led ≡ Some (Proposing (ballot_at frame.now) spared answers.now) }
    ensures ok { IfOk result (λ ch. change_of cell.now ch ≡ cells.kept (Proposing (ballot_at frame.now) spared (with_answer answers.now (sender_at frame.now) (attrs_at frame.now)))) }
    ensures refused { IfErr result (λ e. e ≡ Memory) }
{
    let attrs = frame.to_attrs(alloc)?;
    Ok(Change::of(
        Recorded::Stays,
        LeadChange::PreAccepted(frame.from(), attrs),
        None,
    ))
}

/// Commits the leader's own command with the frame's attributes, which are those of all answers.
#[inline(always)]
fn fast_path(
    alloc: Global,
    cell: &InstanceView<'_>,
    frame: &FrameView<'_>,
) -> Result<Change, DecisionFault>
    requires kind { kind_at frame.now ≡ kind.PreAcceptOk }
    ensures ok { IfOk result (λ ch. change_of cell.now ch ≡ rules.fast_path cell.now.faults cell.now.instance cell.now.me (attrs_at frame.now) (record_of cell.now) (record_of cell.now).vote) }
    ensures refused { IfErr result (λ e. e ≡ Memory) }
{
    let Some(vote) = cell.vote() else {
        return Ok(Change::nothing());
    };
    if frame.has_attrs(&vote.decree.attrs) {
        return Ok(commit_own(cell));
    }
    let command = vote.decree.command.copy(alloc)?;
    let attrs = frame.to_attrs(alloc)?;
    Ok(begin_commit(Decree { command, attrs }))
}

/// Begins the accept phase with the leader's own decree, joined with all answers.
fn slow_path(
    alloc: Global,
    cell: &InstanceView<'_>,
    ballot: Ballot,
    answers: &Answers<Attrs>,
) -> Result<Change, AllocError>
    ensures { IfOk result (λ ch. change_of cell.now ch ≡ rules.slow_path cell.now.faults cell.now.instance cell.now.me ballot answers.now (record_of cell.now).vote) }
{
    let Some(vote) = cell.vote() else {
        return Ok(Change::nothing());
    };
    let decree = joined(alloc, cell.size(), answers, &vote.decree)?;
    Ok(begin_accept(alloc, ballot, decree))
}

/// The same with all answers, the frame's among them.
fn slow_path_with(
    alloc: Global,
    cell: &InstanceView<'_>,
    frame: &FrameView<'_>,
    answers: &Answers<Attrs>,
) -> Result<Change, DecisionFault>
    requires kind { kind_at frame.now ≡ kind.PreAcceptOk }
    ensures ok { IfOk result (λ ch. change_of cell.now ch ≡ rules.slow_path cell.now.faults cell.now.instance cell.now.me (ballot_at frame.now) (with_answer answers.now (sender_at frame.now) (attrs_at frame.now)) (record_of cell.now).vote) }
    ensures refused { IfErr result (λ e. e ≡ Memory) }
{
    let Some(vote) = cell.vote() else {
        return Ok(Change::nothing());
    };
    let decree = joined_with(alloc, cell.size(), answers, frame, &vote.decree)?;
    Ok(begin_accept(alloc, frame.ballot(), decree))
}
