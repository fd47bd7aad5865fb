//! Why nothing is explained.

ghost use Rattle.std.specs.Prelude.{◌≡◌};
ghost use Rattle.ep_explain.specs.declared.explain_fault.ExplainFault.TheVariants.{Memory, ReadFailed as NoRead};

use ep_base::ReadFailed;
use std::alloc::AllocError;
use thiserror::Error;

/// Why nothing is explained.
#[derive(Clone, Copy, Debug, PartialEq, Eq, Error)]
pub enum ExplainFault {
    /// Memory was refused.
    #[error("out of memory")]
    Memory,
    /// The source failed.
    #[error("reading failed")]
    ReadFailed,
}

impl From<AllocError> for ExplainFault {
    ghost from_gives = { λ _ e. e ≡ Memory };

    fn from(_fault: AllocError) -> ExplainFault {
        ExplainFault::Memory
    }
}

impl From<ReadFailed> for ExplainFault {
    ghost from_gives = { λ _ e. e ≡ NoRead };

    fn from(_fault: ReadFailed) -> ExplainFault {
        ExplainFault::ReadFailed
    }
}
