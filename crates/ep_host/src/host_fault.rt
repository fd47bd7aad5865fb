//! Why a host did not do what it was asked for.

ghost use Rattle.std.specs.Prelude.{◌≡◌};
ghost use Rattle.ep_host.specs.declared.host_fault.HostFault.TheVariants.{Memory, Replica as OfReplica};

use ep_journal::StepFault;
use std::alloc::AllocError;
use thiserror::Error;

/// Why a host did not do what it was asked for.
#[derive(Clone, Copy, Debug, PartialEq, Eq, Error)]
pub enum HostFault {
    #[error("E1 memory")]
    Memory,
    /// There is no such replica.
    #[error("E3 out of range")]
    OutOfRange,
    /// The replica refused the event, and is as it was.
    #[error("{0}")]
    Replica(StepFault),
}

impl From<AllocError> for HostFault {
    ghost from_gives = { λ _ e. e ≡ Memory };

    fn from(_fault: AllocError) -> HostFault {
        HostFault::Memory
    }
}

impl From<StepFault> for HostFault {
    ghost from_gives = { λ f e. e ≡ OfReplica f };

    fn from(fault: StepFault) -> HostFault {
        HostFault::Replica(fault)
    }
}
