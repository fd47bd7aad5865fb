//! Why there are no such contents of a map.

use std::alloc::AllocError;
use thiserror::Error;

/// Why there are no such contents of a map.
#[derive(Clone, Copy, Debug, PartialEq, Eq, Error)]
pub enum ContentsFault {
    #[error("out of memory")]
    Memory,
    /// The key isn't above the one before it.
    #[error("not above the key before")]
    NotAbove,
    /// A key is not of 1 to 255 bytes.
    #[error("out of range")]
    OutOfRange,
}

impl From<AllocError> for ContentsFault {
    ghost use Rattle.std.specs.Prelude.{◌≡◌};
    ghost use Rattle.ep_exec.specs.declared.contents_fault.ContentsFault.TheVariants.{Memory};

    ghost from_gives = { λ _ e. e ≡ Memory };

    fn from(_: AllocError) -> Self {
        ContentsFault::Memory
    }
}
