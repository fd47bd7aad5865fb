//! Why a journal or a bundle was not read.

ghost use Rattle.std.specs.Prelude.{◌≡◌};
ghost use Rattle.ep_bundle.specs.declared.bundle_fault.BundleFault.TheVariants.{Memory as NoMemory, ReadFailed as Failed};

use crate::bad_field::BadField;
use ep_base::{ReadFailed, ReplicaId};
use std::alloc::{AllocError, AllocFailed};
use std::error::Error;
use std::fmt;

/// Why a journal or a bundle was not read.
#[derive(Clone, Copy, Debug, PartialEq, Eq)]
pub enum BundleFault {
    /// Memory was refused.
    Memory,
    /// The source failed.
    ReadFailed,
    /// This field is cut by the end of the input or isn't allowed; or the bundle is over, and here is the first byte
    /// left.
    BadBundle(BadField),
    /// The replica's entry of this number, counted from 1, isn't the step that its event asks for.
    NotARun(ReplicaId, u32),
}

impl fmt::Display for BundleFault {
    ghost use Rattle.std.specs.Prelude.{Some};
    ghost use Rattle.ep_bundle.specs.Texts.{fault_text};

    ghost output = { λ e. Some (fault_text e) };

    fn fmt<W: fmt::Write>(&self, f: &mut fmt::Formatter<W>) -> fmt::Result {
        match self {
            BundleFault::Memory => f.write_str("out of memory"),
            BundleFault::ReadFailed => f.write_str("reading failed"),
            BundleFault::BadBundle(field) => write!(f, "bundle refused E12 at byte {}", field.at),
            BundleFault::NotARun(replica, entry) => {
                write!(
                    f,
                    "bundle refused E11 at replica {} entry {entry}",
                    replica.index()
                )
            }
        }
    }
}

impl Error for BundleFault {}

impl From<AllocError> for BundleFault {
    ghost from_gives = { λ _ e. e ≡ NoMemory };

    fn from(_fault: AllocError) -> BundleFault {
        BundleFault::Memory
    }
}

impl From<ReadFailed> for BundleFault {
    ghost from_gives = { λ _ e. e ≡ Failed };

    fn from(_fault: ReadFailed) -> BundleFault {
        BundleFault::ReadFailed
    }
}

impl<T: Drop> From<AllocFailed<T>> for BundleFault {
    ghost from_gives = { λ _ e. e ≡ NoMemory };

    fn from(_fault: AllocFailed<T>) -> BundleFault {
        BundleFault::Memory
    }
}
