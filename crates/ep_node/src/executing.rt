//! Executing an instance, own or not.

ghost use Rattle.std.specs.Prelude.{◌≡◌, ◌↔◌, IsTrue};
ghost use Rattle.ep_node.specs.Executing.{is_uncommitted, is_waiting, IsOutstanding};

use crate::node::Node;
use crate::node_fault::NodeFault;
use ep_base::InstanceId;
use ep_device::Device;
use ep_journal::{Event, StepFault};
use ep_replica::Replica;

/// Whether the instance is committed and not executed.
pub(crate) fn is_outstanding(replica: &Replica, instance: InstanceId) -> bool
    ensures { IsTrue result ↔ IsOutstanding replica.now instance }
{
    let _number = instance.number();
    replica.committed(instance).is_some() && !replica.has_executed(instance)
}

/// Whether the fault says that an execution waits for an instance that isn't committed.
fn is_uncommitted(fault: &StepFault) -> bool
    ensures { result ≡ is_uncommitted fault.now }
{
    match fault {
        StepFault::NotCommitted(_) => true,
        _ => false,
    }
}

/// Whether a node's fault says that an execution waits for an instance that isn't committed.
fn is_waiting(fault: &NodeFault) -> bool
    ensures { result ≡ is_waiting fault.now }
{
    match fault {
        NodeFault::Refused(fault) => is_uncommitted(fault),
        _ => false,
    }
}

impl<D: Device> Node<D> {
    ghost use Rattle.std.specs.Prelude.{◌≡◌, false, IfOk, IfErr};
    ghost use Rattle.ep_node.specs.Executing.{IsTried, IsUntried};

    /// Executes the instance, own or not, and all that it waits for: one entry more, and `true`. `false` if it isn't committed,
    /// was executed, or waits for one that isn't committed; this and a fault leave the node as it was.
    pub fn execute(&mut self, instance: InstanceId) -> Result<bool, NodeFault>
        ensures ok { IfOk result (λ executed. (self.old.closed ≡ false) × IsTried self.old.replica instance executed self.new.replica) }
        ensures same { self.new ≡ record self.old { replica = self.new.replica } }
        ensures refused { IfErr result (λ fault. IsUntried self.old instance fault × (self.new ≡ self.old)) }
    {
        if self.is_closed() {
            return Err(NodeFault::Closed);
        }
        if !self.is_outstanding(instance) {
            return Ok(false);
        }
        match self.step(Event::Execute(instance)) {
            Ok(()) => Ok(true),
            Err(fault) => {
                if is_waiting(&fault) {
                    Ok(false)
                } else {
                    Err(fault)
                }
            }
        }
    }
}
