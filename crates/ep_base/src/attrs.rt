//! The sequence number and the dependencies of a command.

ghost use Rattle.std.specs.Prelude.{◌≡◌, ◌↔◌, IsTrue, OnOk, OnErr, IfOk};
ghost use Rattle.ep_base.specs.Attributes.{join, same_attrs};
ghost use Rattle.ep_base.specs.Deps.{IsUnion};

use crate::deps::Deps;
use crate::seq::Seq;
use std::alloc::{AllocError, Global};

/// A command's attributes: its sequence number, and the instances that it depends on (EPaxos, section 4.3).
#[derive(Drop)]
pub struct Attrs {
    pub seq: Seq,
    pub deps: Deps,
}

impl Attrs {
    /// The same attributes again.
    pub fn copy(&self, alloc: Global) -> Result<Attrs, AllocError>
        ensures { IfOk result (λ a. a ≡ self.now) }
    {
        let deps = self.deps.copy(alloc)?;
        Ok(Attrs {
            seq: self.seq,
            deps,
        })
    }

    /// Whether both have the same sequence number and the same dependencies.
    pub fn is_same(&self, other: &Attrs) -> bool
        ensures test { result ≡ same_attrs self.now other.now }
        ensures same { IsTrue result ↔ (self.now ≡ other.now) }
    {
        self.seq == other.seq && self.deps.is_same(&other.deps)
    }

    /// Takes the greater sequence number, and the dependencies of both.
    pub fn merge(&mut self, alloc: Global, other: &Attrs) -> Result<(), AllocError>
        ensures ok { OnOk result (self.new ≡ join self.old other.now) }
        ensures members { OnOk result (IsUnion self.new.deps self.old.deps other.now.deps) }
        ensures err { OnErr result (self.new ≡ self.old) }
    {
        let deps = self.deps.joined(alloc, &other.deps)?;
        self.deps = deps;
        self.seq = self.seq.greater(other.seq);
        Ok(())
    }
}
