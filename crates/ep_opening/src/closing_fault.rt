//! Why a generation was not closed.

ghost use Rattle.std.specs.Prelude.{◌≡◌};
ghost use Rattle.ep_opening.specs.declared.closing_fault.ClosingFault.TheVariants.{Memory as NoMemory};

use std::alloc::AllocError;
use thiserror::Error;

/// Why a journal gives no file for the next generation.
#[derive(Clone, Copy, Debug, PartialEq, Eq, Error)]
pub enum ClosingFault {
    /// Memory was refused; or more than 4,000,000,000 keys have a value, which no file can say, and which take hundreds of gigabytes.
    #[error("out of memory")]
    Memory,
    /// No seal was executed. In versions 1 and 2 there is none.
    #[error("not closed: no seal was executed")]
    NotSealed,
    /// It is generation 4,294,967,295, and there is no other after it.
    #[error("no generation is left")]
    LastGeneration,
}

impl From<AllocError> for ClosingFault {
    ghost from_gives = { λ _ e. e ≡ NoMemory };

    fn from(_fault: AllocError) -> ClosingFault {
        ClosingFault::Memory
    }
}
