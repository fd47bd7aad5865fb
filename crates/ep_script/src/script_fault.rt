//! Why a script was not read.

ghost use Rattle.std.specs.Prelude.{◌≡◌};
ghost use Rattle.ep_script.specs.Faults.{of_line};
ghost use Rattle.ep_script.specs.declared.script_fault.ScriptFault.TheVariants.{Memory};

use crate::line_fault::LineFault;
use std::alloc::AllocError;
use thiserror::Error;

/// Why a script was not read.
#[derive(Clone, Copy, Debug, PartialEq, Eq, Error)]
pub enum ScriptFault {
    /// Memory was refused.
    #[error("out of memory")]
    Memory,
    /// The source failed.
    #[error("reading failed")]
    ReadFailed,
    /// The first line at fault, counted from 1: at most 100,001.
    #[error("script refused at line {0}")]
    Refused(u32),
}

impl From<LineFault> for ScriptFault {
    ghost from_gives = { λ l e. e ≡ of_line l };

    fn from(fault: LineFault) -> ScriptFault {
        match fault {
            LineFault::Memory => ScriptFault::Memory,
            LineFault::ReadFailed => ScriptFault::ReadFailed,
        }
    }
}

impl From<AllocError> for ScriptFault {
    ghost from_gives = { λ _ e. e ≡ Memory };

    fn from(_fault: AllocError) -> ScriptFault {
        ScriptFault::Memory
    }
}
