//! Copies that take memory.

ghost use Rattle.std.specs.Prelude.{◌≡◌, IfOk};

use ep_base::{Attrs, Vote};
use std::alloc::{AllocError, Global};

/// A value that can be copied, which may take memory.
pub trait Duplicate: Drop {
    /// A copy of the value.
    fn duplicate(&self, alloc: Global) -> Result<Self, AllocError>
        ensures { IfOk result (λ x. x ≡ self.now) };
}

impl Duplicate for () {
    fn duplicate(&self, _alloc: Global) -> Result<(), AllocError> {
        Ok(())
    }
}

impl Duplicate for u16 {
    fn duplicate(&self, _alloc: Global) -> Result<u16, AllocError> {
        Ok(*self)
    }
}

impl Duplicate for Attrs {
    fn duplicate(&self, alloc: Global) -> Result<Attrs, AllocError> {
        self.copy(alloc)
    }
}

impl Duplicate for Option<Vote> {
    fn duplicate(&self, alloc: Global) -> Result<Option<Vote>, AllocError> {
        match self {
            None => Ok(None),
            Some(vote) => Ok(Some(vote.copy(alloc)?)),
        }
    }
}
