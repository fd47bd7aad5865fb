//! Why an opening file was not read.

ghost use Rattle.std.specs.Prelude.{◌≡◌};
ghost use Rattle.ep_opening.specs.declared.opening_fault.OpeningFault.TheVariants.{Memory as NoMemory};

use crate::opening_field::OpeningField;
use std::alloc::AllocError;
use thiserror::Error;

/// Why an opening file was not read: the first of these, in the order of length, magic, version, digest, and then the other fields as they stand
/// in the file. Offsets are counted from 0.
#[derive(Clone, Copy, Debug, PartialEq, Eq, Error)]
pub enum OpeningFault {
    /// Memory was refused.
    #[error("out of memory")]
    Memory,
    /// There are so many bytes, fewer than the 59 of the shortest file.
    #[error("cut short at byte {0}")]
    CutShort(u64),
    /// The digest, which begins here, isn't that of the bytes before it.
    #[error("damaged: the digest at byte {0} is another than that of the bytes before it")]
    Damaged(u64),
    /// The field that begins here is cut by the digest, or isn't allowed.
    #[error("{1} at byte {0} is wrong")]
    Wrong(u64, OpeningField),
}

impl From<AllocError> for OpeningFault {
    ghost from_gives = { λ _ e. e ≡ NoMemory };

    fn from(_fault: AllocError) -> OpeningFault {
        OpeningFault::Memory
    }
}
