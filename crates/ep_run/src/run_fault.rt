//! Why a run didn't end.

ghost use Rattle.std.specs.Prelude.{◌≡◌};
ghost use Rattle.ep_run.specs.declared.run_fault.RunFault.TheVariants.{Memory};

use ep_host::HostFault;
use std::alloc::AllocError;
use thiserror::Error;

/// Why a run didn't end.
#[derive(Clone, Copy, Debug, PartialEq, Eq, Error)]
pub enum RunFault {
    /// Memory was refused, elsewhere than in a thread.
    #[error("E1 memory")]
    Memory,
    /// The system started no thread more.
    #[error("no thread could be started")]
    NoThread,
}

impl From<AllocError> for RunFault {
    ghost from_gives = { λ _ e. e ≡ Memory };

    fn from(_fault: AllocError) -> RunFault {
        RunFault::Memory
    }
}
