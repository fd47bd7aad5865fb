//! What executions made, as it is reported.

ghost use Rattle.std.specs.Prelude.{◌≡◌, IfOk};
ghost use Rattle.ep_node.specs.Nodes.{Logged};
ghost use Rattle.ep_journal.specs.declared.step_fault.StepFault.TheVariants as step;
ghost use Rattle.ep_serve.specs.Acting.{made_since, stopped_since};

use crate::pending_answer::PendingAnswer;
use ep_device::Device;
use ep_journal::{Refusal, StepFault};
use ep_node::Node;
use std::alloc::AllocError;

/// The entries that were made behind the first ones, so many.
pub(crate) fn made_since<D: Device>(node: &Node<D>, from: usize) -> PendingAnswer
    ensures { result ≡ made_since from node.now.replica }
{
    let count = node.taken().saturating_sub(from);
    PendingAnswer::Taken { from, count }
}

/// The same where no stamp is left for the next one; if none was made, that refusal.
pub(crate) fn stopped_since<D: Device>(node: &Node<D>, from: usize) -> PendingAnswer
    ensures { result ≡ stopped_since from node.now.replica }
{
    if node.taken() == from {
        PendingAnswer::Refused(Refusal::Step(StepFault::StampFull))
    } else {
        made_since(node, from)
    }
}

/// What is reported where an execution was refused by this fault: `Err` where that isn't want of a stamp.
pub(crate) fn stopped_by<D: Device>(
    node: &Node<D>,
    from: usize,
    fault: StepFault,
) -> Result<PendingAnswer, AllocError>
    ensures { IfOk result (λ due. (fault ≡ step.StampFull) × (due ≡ stopped_since from node.now.replica)) }
{
    match fault {
        StepFault::StampFull => Ok(stopped_since(node, from)),
        _ => Err(AllocError),
    }
}
