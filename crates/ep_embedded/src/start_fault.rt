//! Why no node was begun.

ghost use Rattle.std.specs.Prelude.{◌≡◌};
ghost use Rattle.ep_embedded.specs.Faults.{of_opening, of_open};
ghost use Rattle.ep_embedded.specs.declared.start_fault.StartFault.TheVariants.{Memory as NoMemory};

use ep_node::OpenFault;
use ep_opening::OpeningFault;
use std::alloc::AllocError;
use thiserror::Error;

/// Why no node was begun.
#[derive(Clone, Copy, Debug, PartialEq, Eq, Error)]
pub enum StartFault {
    /// Memory was refused.
    #[error("E1 memory")]
    Memory,
    /// The bytes are no opening, and why. It isn't out of memory.
    #[error("{0}")]
    Opening(OpeningFault),
    /// The opening is that of a cluster of so many replicas.
    #[error("the opening is of a cluster of {0}")]
    OtherSize(u8),
    /// The log can't be begun, or gone on from, and why. It isn't out of memory.
    #[error("{0}")]
    Log(OpenFault),
}

impl From<AllocError> for StartFault {
    ghost from_gives = { λ _ e. e ≡ NoMemory };

    fn from(_fault: AllocError) -> StartFault {
        StartFault::Memory
    }
}

impl From<OpeningFault> for StartFault {
    ghost from_gives = { λ fault e. e ≡ of_opening fault };

    fn from(fault: OpeningFault) -> StartFault {
        match fault {
            OpeningFault::Memory => StartFault::Memory,
            OpeningFault::CutShort(_) | OpeningFault::Damaged(_) | OpeningFault::Wrong(_, _) => {
                StartFault::Opening(fault)
            }
        }
    }
}

impl From<OpenFault> for StartFault {
    ghost from_gives = { λ fault e. e ≡ of_open fault };

    fn from(fault: OpenFault) -> StartFault {
        match fault {
            // A device in memory fails only when out of memory.
            OpenFault::Memory | OpenFault::Failed(_) => StartFault::Memory,
            OpenFault::OutOfRange
            | OpenFault::NoLog
            | OpenFault::LogExists
            | OpenFault::OtherLog
            | OpenFault::Log(_)
            | OpenFault::NotClocked(_) => StartFault::Log(fault),
        }
    }
}
