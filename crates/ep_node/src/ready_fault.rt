//! Why a node says nothing.

ghost use Rattle.std.specs.Prelude.{◌≡◌};
ghost use Rattle.ep_node.specs.declared.ready_fault.ReadyFault.TheVariants.{Memory as NoMemory};

use std::alloc::AllocError;
use thiserror::Error;

/// Why a node says nothing. It is as it was.
#[derive(Clone, Copy, Debug, PartialEq, Eq, Error)]
pub enum ReadyFault {
    /// Memory was refused.
    #[error("E1 memory")]
    Memory,
    /// Not all that it took is on the disk: sync first.
    #[error("not all is on the disk")]
    Unsynced,
    /// The device failed before.
    #[error("the node is closed")]
    Closed,
}

impl From<AllocError> for ReadyFault {
    ghost from_gives = { λ _ e. e ≡ NoMemory };

    fn from(_fault: AllocError) -> ReadyFault {
        ReadyFault::Memory
    }
}
