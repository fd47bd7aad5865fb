//! What a replica decides on what is asked of an instance.

ghost use Rattle.std.specs.Prelude.{◌≡◌, true, Ok, IfOk, IfErr};
ghost use Rattle.ep_frame.specs.Meaning.{kind_at, message_at, message_by, sender_at};
ghost use Rattle.ep_phase.specs.Changes.{change_of};
ghost use Rattle.ep_phase.specs.Refused.{IsRefused};
ghost use Rattle.ep_frame.specs.declared.kind.Kind.TheVariants.{Commit, PrepareOk};
ghost use Rattle.ep_journal.specs.Inputs.{handled_at, outcome_at, settling};

use crate::input::Input;
use ep_frame::{FrameView, Kind};
use ep_phase::{
    Change, DecisionFault, InstanceView, give_up, on_accept, on_accept_ok, on_commit,
    on_pre_accept, on_pre_accept_ok, start,
};
use ep_prepare::{on_nack, on_prepare, on_prepare_ok, recover};
use std::alloc::Global;

/// Decides what is asked of the cell's instance; nothing has changed then.
#[inline(always)]
pub(crate) fn decide(
    alloc: Global,
    cell: &InstanceView<'_>,
    input: Input<'_>,
) -> Result<Change, DecisionFault>
    ensures ok { IfOk result (λ ch. outcome_at cell.now input.entry ≡ Ok (change_of cell.now ch)) }
    ensures refused { IfErr result (λ e. IsRefused (outcome_at cell.now input.entry) e) }
{
    match input {
        Input::Start(command, spared) => start(alloc, cell, *spared, command),
        Input::Message(frame) => handle(alloc, cell, frame),
        Input::GiveUp => give_up(alloc, cell),
        Input::Recover => recover(alloc, cell),
    }
}

/// Decides what comes of the frame's message.
#[inline(always)]
#[tactic(auto, using(crate::proofs::Handled::handled_ok, crate::proofs::Handled::handled_refused))]
fn handle(
    alloc: Global,
    cell: &InstanceView<'_>,
    frame: &FrameView<'_>,
) -> Result<Change, DecisionFault>
    ensures ok { IfOk result (λ ch. handled_at cell.now (sender_at frame.now) (message_at frame.now) ≡ Ok (change_of cell.now ch)) }
    ensures refused { IfErr result (λ e. IsRefused (handled_at cell.now (sender_at frame.now) (message_at frame.now)) e) }
{
    handle_by(alloc, cell, frame, frame.kind())
}

/// Decides what comes of the frame's message, which is of this kind.
#[inline(always)]
#[tactic(auto, using(crate::proofs::Handled::rule_ok, crate::proofs::Handled::rule_refused))]
fn handle_by(
    alloc: Global,
    cell: &InstanceView<'_>,
    frame: &FrameView<'_>,
    kind: Kind,
) -> Result<Change, DecisionFault>
    requires { kind_at frame.now ≡ kind }
    ensures ok { IfOk result (λ ch. handled_at cell.now (sender_at frame.now) (message_by kind frame.now) ≡ Ok (change_of cell.now ch)) }
    ensures refused { IfErr result (λ e. IsRefused (handled_at cell.now (sender_at frame.now) (message_by kind frame.now)) e) }
{
    match kind {
        Kind::PreAccept => on_pre_accept(alloc, cell, frame),
        Kind::PreAcceptOk => on_pre_accept_ok(alloc, cell, frame),
        Kind::Accept => on_accept(alloc, cell, frame),
        Kind::AcceptOk => Ok(on_accept_ok(cell, frame.from(), frame.ballot())),
        Kind::Commit => on_commit(alloc, cell, frame),
        Kind::Prepare => Ok(on_prepare(cell, frame.from(), frame.ballot())),
        Kind::PrepareOk => handle_vote(alloc, cell, frame),
        Kind::Nack => Ok(on_nack(cell, frame.other())),
    }
}

/// Decides what comes of a PrepareOK.
fn handle_vote(
    alloc: Global,
    cell: &InstanceView<'_>,
    frame: &FrameView<'_>,
) -> Result<Change, DecisionFault>
    requires { kind_at frame.now ≡ PrepareOk }
    ensures ok { IfOk result (λ ch. handled_at cell.now (sender_at frame.now) (message_by PrepareOk frame.now) ≡ Ok (change_of cell.now ch)) }
    ensures refused { IfErr result (λ e. IsRefused (handled_at cell.now (sender_at frame.now) (message_by PrepareOk frame.now)) e) }
{
    let vote = frame.to_vote(alloc)?;
    on_prepare_ok(alloc, cell, frame.from(), frame.ballot(), vote)
}

/// Whether the Commit is of what the replica voted for and hasn't committed. Then the vote's status changes, the
/// instance is led no longer, and nothing is sent.
#[inline(never)]
pub(crate) fn is_settled_by(cell: &InstanceView<'_>, frame: &FrameView<'_>) -> bool
    requires { kind_at frame.now ≡ Commit }
    ensures { result ≡ true → handled_at cell.now (sender_at frame.now) (message_at frame.now) ≡ Ok (settling cell.now) }
{
    if cell.is_committed() {
        return false;
    }
    match cell.vote() {
        None => false,
        Some(vote) => frame.has_decree(&vote.decree),
    }
}
