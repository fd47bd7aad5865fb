//! Why a node hands out no file for the next generation.

ghost use Rattle.std.specs.Prelude.{◌≡◌};
ghost use Rattle.ep_node.specs.Closing.{of_closing};

use ep_opening::ClosingFault;
use thiserror::Error;

/// Why a node hands out no file for the next generation. It is as it was.
#[derive(Clone, Copy, Debug, PartialEq, Eq, Error)]
pub enum CloseFault {
    /// Memory was refused; or the map has more keys than a file can say, which take hundreds of gigabytes.
    #[error("E1 memory")]
    Memory,
    /// The replica has executed no seal. In version 2 there is none.
    #[error("no seal was executed")]
    NotSealed,
    /// It is generation 4,294,967,295, and there is no other after it.
    #[error("no generation is left")]
    LastGeneration,
    /// Not all that it took is on the disk: sync first.
    #[error("not all is on the disk")]
    Unsynced,
    /// The device failed before.
    #[error("the node is closed")]
    Closed,
}

impl From<ClosingFault> for CloseFault {
    ghost from_gives = { λ fault e. e ≡ of_closing fault };

    fn from(fault: ClosingFault) -> CloseFault {
        match fault {
            ClosingFault::Memory => CloseFault::Memory,
            ClosingFault::NotSealed => CloseFault::NotSealed,
            ClosingFault::LastGeneration => CloseFault::LastGeneration,
        }
    }
}
