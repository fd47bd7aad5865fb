//! Why a node did not do what was asked.

ghost use Rattle.std.specs.Prelude.{◌≡◌};
ghost use Rattle.ep_node.specs.declared.node_fault.NodeFault.TheVariants.{Failed as DeviceFault, Memory as NoMemory, Refused as Untaken};

use ep_device::{DeviceFailed, SystemFault};
use ep_journal::StepFault;
use std::alloc::AllocError;
use thiserror::Error;

/// Why a node did not do what was asked.
#[derive(Clone, Copy, Debug, PartialEq, Eq, Error)]
pub enum NodeFault {
    /// The event was not taken, and all is as it was.
    #[error("{0}")]
    Refused(StepFault),
    /// Memory was refused to a sync. What was taken isn't on the disk yet: sync again.
    #[error("E1 memory")]
    Memory,
    /// The device failed, and why. The node takes nothing more, and hands nothing out, until it is opened again.
    #[error("{0}")]
    Failed(SystemFault),
    /// The device failed before.
    #[error("the node is closed")]
    Closed,
}

impl From<StepFault> for NodeFault {
    ghost from_gives = { λ fault e. e ≡ Untaken fault };

    fn from(fault: StepFault) -> NodeFault {
        NodeFault::Refused(fault)
    }
}

impl From<AllocError> for NodeFault {
    ghost from_gives = { λ _ e. e ≡ NoMemory };

    fn from(_fault: AllocError) -> NodeFault {
        NodeFault::Memory
    }
}

impl From<DeviceFailed> for NodeFault {
    ghost from_gives = { λ failed e. e ≡ DeviceFault failed.cause };

    fn from(failed: DeviceFailed) -> NodeFault {
        NodeFault::Failed(failed.cause)
    }
}
