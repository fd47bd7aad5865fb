//! Why no map is shown.

ghost use Rattle.std.specs.Prelude.{◌≡◌};
ghost use Rattle.ep_assemble.specs.declared.show_fault.ShowFault.TheVariants.{Memory as NoMemory};

use ep_log::LogFault;
use ep_opening::OpeningFault;
use std::alloc::AllocError;
use thiserror::Error;

/// Why no map is shown: the first of these.
#[derive(Clone, Copy, Debug, PartialEq, Eq, Error)]
pub enum ShowFault {
    /// Memory was refused.
    #[error("out of memory")]
    Memory,
    /// The opening file isn't one.
    #[error("opening: {0}")]
    Opening(OpeningFault),
    /// The opening file is of another generation.
    #[error("another generation")]
    OtherGeneration,
    /// The log isn't one of a replica that opened with this file.
    #[error("log: {0}")]
    Log(LogFault),
}

impl From<AllocError> for ShowFault {
    ghost from_gives = { λ _ e. e ≡ NoMemory };

    fn from(_fault: AllocError) -> ShowFault {
        ShowFault::Memory
    }
}
