//! What is voted on.

ghost use Rattle.std.specs.Prelude.{◌≡◌, ◌↔◌, IsTrue, IfOk};
ghost use Rattle.ep_base.specs.Sameness.{same_decree};

use crate::attrs::Attrs;
use crate::command::Command;
use std::alloc::{AllocError, Global};

/// A command with its attributes: what replicas vote on, and commit, in an instance.
#[derive(Drop)]
pub struct Decree {
    pub command: Command,
    pub attrs: Attrs,
}

impl Decree {
    /// The same decree again.
    pub fn copy(&self, alloc: Global) -> Result<Decree, AllocError>
        ensures { IfOk result (λ d. d ≡ self.now) }
    {
        let command = self.command.copy(alloc)?;
        let attrs = self.attrs.copy(alloc)?;
        Ok(Decree { command, attrs })
    }

    /// Whether both are one decree.
    pub fn is_same(&self, other: &Decree) -> bool
        ensures test { result ≡ same_decree self.now other.now }
        ensures same { IsTrue result ↔ (self.now ≡ other.now) }
    {
        self.command.is_same(&other.command) && self.attrs.is_same(&other.attrs)
    }
}
