//! Why a line was not read.

ghost use Rattle.std.specs.Prelude.{◌≡◌};
ghost use Rattle.ep_script.specs.declared.line_fault.LineFault.TheVariants.{ReadFailed as NoRead, Memory};

use ep_base::ReadFailed;
use std::alloc::AllocError;

/// Why a line was not read.
#[derive(Clone, Copy, Debug, PartialEq, Eq)]
pub(crate) enum LineFault {
    /// Memory was refused.
    Memory,
    /// The source failed.
    ReadFailed,
}

impl From<ReadFailed> for LineFault {
    ghost from_gives = { λ _ e. e ≡ NoRead };

    fn from(_fault: ReadFailed) -> LineFault {
        LineFault::ReadFailed
    }
}

impl From<AllocError> for LineFault {
    ghost from_gives = { λ _ e. e ≡ Memory };

    fn from(_fault: AllocError) -> LineFault {
        LineFault::Memory
    }
}
