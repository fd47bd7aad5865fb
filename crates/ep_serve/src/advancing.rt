//! Executing all own instances that are ready.

ghost use Rattle.std.specs.Prelude.{◌≡◌, ◌⊎◌, ℕ, false, length, Ok, IfOk, IfErr, OnOk, OnErr};
ghost use Rattle.ep_node.specs.Nodes.{Logged};
ghost use Rattle.ep_replica.specs.Pending.{IsHeldUp, TriesNext};
ghost use Rattle.ep_serve.specs.Acting.{AdvancesAll, AdvancesShort, ExecutesSo, IsPassedOver};

use crate::making::{made_since, stopped_by};
use crate::pending_answer::PendingAnswer;
use ep_device::Device;
use ep_journal::StepFault;
use ep_node::{Node, NodeFault};
use std::alloc::AllocError;

/// The node, whose device works, executes the least own instance that is ready, with all that it waits for: one entry more, and `true`; `false` where none is
/// ready. `Err`, when out of memory or of stamps, changes nothing.
pub fn execute_own<D: Device>(node: &mut Node<D>) -> Result<bool, StepFault>
    requires { node.old.closed ≡ false }
    ensures ok { IfOk result (λ executed. TriesNext node.old.replica (Ok executed) node.new.replica) }
    ensures same { node.new ≡ record node.old { replica = node.new.replica } }
    ensures err { IfErr result (λ fault. IsHeldUp node.old.replica fault × (node.new ≡ node.old)) }
{
    match node.try_next() {
        Ok(executed) => Ok(executed),
        Err(NodeFault::Refused(fault)) => Err(fault),
        Err(_) => unreachable!(),
    }
}

/// The node, whose device works, executes all own instances that are ready, in rising order, until none is. `Err`, when out of memory or of stamps: those
/// before the one that was refused have been executed.
pub fn advance_own<D: Device>(node: &mut Node<D>) -> Result<(), StepFault>
    requires { node.old.closed ≡ false }
    ensures some { (times : ℕ) × ExecutesSo times node.old.replica node.new.replica }
    ensures ok { OnOk result (TriesNext node.new.replica (Ok false) node.new.replica) }
    ensures same { node.new ≡ record node.old { replica = node.new.replica } }
    ensures err { IfErr result (IsHeldUp node.new.replica) }
{
    for _times in 0..u64::MAX {
        let executed = match execute_own(node) {
            Ok(executed) => executed,
            Err(fault) => return Err(fault),
        };
        if !executed {
            return Ok(());
        }
    }
    // No replica has so many entries.
    let _entries = node.taken();
    unreachable!()
}

/// The node, whose device works, executes all own instances that are ready, and says what was made. Running out of memory stops it at one.
fn advance<D: Device>(node: &mut Node<D>) -> Result<PendingAnswer, AllocError>
    requires { node.old.closed ≡ false }
    ensures ok { IfOk result (λ due. AdvancesAll node.old.replica due node.new.replica) }
    ensures same { node.new ≡ record node.old { replica = node.new.replica } }
    ensures err { OnErr result (AdvancesShort node.old.replica node.new.replica) }
{
    let from = node.taken();
    match advance_own(node) {
        Ok(()) => Ok(made_since(node, from)),
        Err(fault) => stopped_by(node, from, fault),
    }
}

/// Any node executes all own instances that are ready: `Err` where its device has failed, and where memory runs out.
pub(crate) fn advance_all<D: Device>(node: &mut Node<D>) -> Result<PendingAnswer, AllocError>
    ensures ok { IfOk result (λ due. AdvancesAll node.old.replica due node.new.replica) }
    ensures same { node.new ≡ record node.old { replica = node.new.replica } }
    ensures err { OnErr result (IsPassedOver node.old node.new ⊎ AdvancesShort node.old.replica node.new.replica) }
{
    if node.is_closed() {
        return Err(AllocError);
    }
    advance(node)
}
