//! The screen: events that no state takes.

ghost use Rattle.std.specs.Prelude.{◌≡◌, ℕ, ltb, true, Option, None, IfErr, OnOk};
ghost use Rattle.ep_base.specs.Commands.{Command};
ghost use Rattle.ep_base.specs.Instances.{leader_of};
ghost use Rattle.ep_base.specs.Quorums.{size, may_spare};
ghost use Rattle.ep_rules.specs.Steps.{may_ask, screened, Propose, Handle, GiveUp};
ghost use Rattle.ep_journal.specs.Events.{frame_at};
ghost use Rattle.ep_journal.specs.Stepping.{IsScreened};

use crate::step_fault::StepFault;
use ep_base::{Command, InstanceId, ReplicaId, Size, may_be_spared};
use ep_frame::FrameView;

/// `OutOfRange` unless a client may ask for this: the command is no no-op, and the client and the request are from 1.
pub(crate) fn screen_request(client: u32, request: u32, command: &Command) -> Result<(), StepFault>
    ensures ok { OnOk result (may_ask client request command.now ≡ true) }
    ensures refused { IfErr result (λ e. (f : ℕ) (me : ℕ) (seen : ℕ) (named : Option ℕ) → IsScreened (screened f me (Propose client request command.now seen named)) e) }
{
    if !may_propose(client, request, command) {
        return Err(StepFault::OutOfRange);
    }
    Ok(())
}

/// `OutOfRange` if a proposal of this replica names a spared one that is itself or none of the cluster.
#[tactic(auto, using(crate::proofs::Asked::unspared))]
pub(crate) fn screen_spared(
    cluster: Size,
    me: ReplicaId,
    named: Option<ReplicaId>,
) -> Result<(), StepFault>
    ensures ok { OnOk result (may_spare cluster me named ≡ true) }
    ensures refused { IfErr result (λ e. (client request : ℕ) (c : Command) (seen : ℕ) → IsScreened (screened cluster me (Propose client request c seen named)) e) }
{
    if !may_be_spared(cluster, me, named) {
        return Err(StepFault::OutOfRange);
    }
    Ok(())
}

/// Why no state takes the frame: `OutOfRange` if its sender, its receiver or a replica that its message names is not of the cluster, then
/// `NotMine` if it is for another replica.
#[inline(always)]
pub(crate) fn screen_frame(
    cluster: Size,
    me: ReplicaId,
    frame: &FrameView<'_>,
) -> Result<(), StepFault>
    ensures ok { OnOk result (screened cluster me (Handle (frame_at frame.now)) ≡ None) }
    ensures refused { IfErr result (λ e. IsScreened (screened cluster me (Handle (frame_at frame.now))) e) }
{
    if !frame.is_within(cluster.count()) {
        return Err(StepFault::OutOfRange);
    }
    if frame.origin().to != me {
        return Err(StepFault::NotMine);
    }
    Ok(())
}

/// `OutOfRange` unless the instance is of a replica of the cluster.
#[inline(always)]
pub(crate) fn screen_instance(cluster: Size, instance: InstanceId) -> Result<(), StepFault>
    ensures ok { OnOk result ((me : ℕ) → screened cluster me (GiveUp instance) ≡ None) }
    ensures refused { IfErr result (λ e. (me : ℕ) → IsScreened (screened cluster me (GiveUp instance)) e) }
{
    if !leader_within(cluster.count(), instance) {
        return Err(StepFault::OutOfRange);
    }
    Ok(())
}

/// Whether a client may ask for this: the command is no no-op, and the client and the request are from 1.
fn may_propose(client: u32, request: u32, command: &Command) -> bool
    ensures { result ≡ may_ask client request command.now }
{
    !command.is_noop() && 0 < client && 0 < request
}

fn leader_within(count: u8, instance: InstanceId) -> bool
    ensures { result ≡ ltb (leader_of instance) count }
{
    instance.replica().index() < count
}
