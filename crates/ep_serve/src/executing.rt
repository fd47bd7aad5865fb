//! Executing all that is ready, own or not.

ghost use Rattle.std.specs.Prelude.{◌≡◌, ◌≤◌, ◌⊎◌, false, ℕ, List, IfOk, OnErr};
ghost use Rattle.ep_base.specs.Instances.{instance_of, highest_number};
ghost use Rattle.ep_journal.specs.declared.step_fault.StepFault.TheVariants as step;
ghost use Rattle.ep_node.specs.Executing.{IsOutstanding};
ghost use Rattle.ep_node.specs.Nodes.{Logged};
ghost use Rattle.ep_serve.specs.Acting.{AreSwept, ExecutesAll, ExecutesEach, IsPassedOver, IsSwept, LedWantsMemory, StopsShort, TriesOne};

use crate::making::{made_since, stopped_since};
use crate::pending_answer::PendingAnswer;
use ep_base::{InstanceId, ReplicaId};
use ep_device::Device;
use ep_journal::StepFault;
use ep_node::{Node, NodeFault};
use std::alloc::AllocError;

/// The replica's instance of this number.
pub(crate) fn instance_at(replica: ReplicaId, number: u16) -> InstanceId
    requires { (1 ≤ number) × (number ≤ highest_number) }
    ensures { result ≡ instance_of replica number }
{
    InstanceId::new(replica, number).unwrap()
}

/// That no stamp is left; any other fault of an execution means out of memory.
fn stampless(fault: StepFault) -> Result<bool, AllocError>
    ensures { IfOk result (λ tried. (tried ≡ false) × (fault ≡ step.StampFull)) }
{
    match fault {
        StepFault::StampFull => Ok(false),
        _ => Err(AllocError),
    }
}

/// Executes the instance, if it is ready; `false` where no stamp is left for that. Running out of memory changes nothing.
fn try_one<D: Device>(node: &mut Node<D>, instance: InstanceId) -> Result<bool, AllocError>
    requires { node.old.closed ≡ false }
    ensures ok { IfOk result (λ tried. TriesOne node.old.replica instance tried node.new.replica) }
    ensures same { node.new ≡ record node.old { replica = node.new.replica } }
    ensures err { OnErr result (IsOutstanding node.old.replica instance × (node.new.replica ≡ node.old.replica)) }
{
    match node.execute(instance) {
        Ok(_) => Ok(true),
        Err(NodeFault::Refused(fault)) => stampless(fault),
        Err(_) => unreachable!(),
    }
}

/// Executes those of this leader's instances that are ready, in rising order; `false` where no stamp is left for one. Running out of memory stops it at one.
fn execute_led<D: Device>(node: &mut Node<D>, leader: ReplicaId) -> Result<bool, AllocError>
    requires { node.old.closed ≡ false }
    ensures ok { IfOk result (λ swept. (roots : List ℕ) × ExecutesEach node.old.replica roots node.new.replica × IsSwept leader swept node.new.replica) }
    ensures same { node.new ≡ record node.old { replica = node.new.replica } }
    ensures err { OnErr result ((roots : List ℕ) × ExecutesEach node.old.replica roots node.new.replica × LedWantsMemory leader node.new.replica) }
{
    let top = node.highest();
    for number in 1..top + 1 {
        let tried = try_one(node, instance_at(leader, number))?;
        if !tried {
            return Ok(false);
        }
    }
    Ok(true)
}

/// Executes all instances that are ready, in rising order; `false` where no stamp is left for one. One try of each suffices: an execution commits nothing.
fn execute_every<D: Device>(node: &mut Node<D>) -> Result<bool, AllocError>
    requires { node.old.closed ≡ false }
    ensures ok { IfOk result (λ swept. (roots : List ℕ) × ExecutesEach node.old.replica roots node.new.replica × AreSwept swept node.new.replica) }
    ensures same { node.new ≡ record node.old { replica = node.new.replica } }
    ensures err { OnErr result (StopsShort node.old.replica node.new.replica) }
{
    for index in 0..7 {
        let swept = execute_led(node, ReplicaId::from_valid(index))?;
        if !swept {
            return Ok(false);
        }
    }
    Ok(true)
}

/// The node executes all that is committed and waits for nothing that isn't, own or not. `Err` where its device has failed, and where memory runs out.
pub(crate) fn execute_all<D: Device>(node: &mut Node<D>) -> Result<PendingAnswer, AllocError>
    ensures ok { IfOk result (λ due. ExecutesAll node.old.replica due node.new.replica) }
    ensures same { node.new ≡ record node.old { replica = node.new.replica } }
    ensures err { OnErr result (IsPassedOver node.old node.new ⊎ StopsShort node.old.replica node.new.replica) }
{
    if node.is_closed() {
        return Err(AllocError);
    }
    let from = node.taken();
    let swept = execute_every(node)?;
    if !swept {
        return Ok(stopped_since(node, from));
    }
    Ok(made_since(node, from))
}
