//! Why no node of the next generation was begun.

ghost use Rattle.std.specs.Prelude.{◌≡◌};
ghost use Rattle.ep_embedded.specs.Faults.{of_close, of_reopen};
ghost use Rattle.ep_embedded.specs.declared.succeed_fault.SucceedFault.TheVariants.{Memory as NoMemory};

use ep_node::{CloseFault, OpenFault};
use std::alloc::AllocError;
use thiserror::Error;

/// Why no node of the next generation was begun.
#[derive(Clone, Copy, Debug, PartialEq, Eq, Error)]
pub enum SucceedFault {
    /// Memory was refused; or the map has more keys than a file can say.
    #[error("E1 memory")]
    Memory,
    /// The replica's number isn't below the size of the next generation's cluster.
    #[error("E3 out of range")]
    OutOfRange,
    /// The replica has executed no seal. In version 2 there is none.
    #[error("no seal was executed")]
    NotSealed,
    /// It is generation 4,294,967,295, and there is no other after it.
    #[error("no generation is left")]
    LastGeneration,
    /// Not all that it took is on the disk.
    #[error("not all is on the disk")]
    Unsynced,
    /// The log that is there can't be gone on from, and why. It isn't out of memory.
    #[error("{0}")]
    Log(OpenFault),
}

impl From<AllocError> for SucceedFault {
    ghost from_gives = { λ _ e. e ≡ NoMemory };

    fn from(_fault: AllocError) -> SucceedFault {
        SucceedFault::Memory
    }
}

impl From<CloseFault> for SucceedFault {
    ghost from_gives = { λ fault e. e ≡ of_close fault };

    fn from(fault: CloseFault) -> SucceedFault {
        match fault {
            CloseFault::Memory => SucceedFault::Memory,
            CloseFault::NotSealed => SucceedFault::NotSealed,
            CloseFault::LastGeneration => SucceedFault::LastGeneration,
            // (no device of a host fails)
            CloseFault::Unsynced | CloseFault::Closed => SucceedFault::Unsynced,
        }
    }
}

impl From<OpenFault> for SucceedFault {
    ghost from_gives = { λ fault e. e ≡ of_reopen fault };

    fn from(fault: OpenFault) -> SucceedFault {
        match fault {
            // A device in memory fails only when out of memory.
            OpenFault::Memory | OpenFault::Failed(_) => SucceedFault::Memory,
            OpenFault::OutOfRange => SucceedFault::OutOfRange,
            OpenFault::NoLog
            | OpenFault::LogExists
            | OpenFault::OtherLog
            | OpenFault::Log(_)
            | OpenFault::NotClocked(_) => SucceedFault::Log(fault),
        }
    }
}
