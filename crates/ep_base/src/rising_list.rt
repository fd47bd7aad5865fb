//! Instances that are found in rising order.

ghost use Rattle.std.specs.Prelude.{◌≡◌, [], ◌∷◌, ◌++◌, OnOk, OnErr, IfOk};
ghost use Rattle.ep_base.specs.Deps.{IsRising};

use crate::deps::Deps;
use crate::instance_id::InstanceId;
use std::alloc::{AllocError, Global};
use std::marker::Model;

/// A list of instances in rising order, to which greater ones are added. Once it is whole it is a set of dependencies.
#[derive(Drop)]
pub struct RisingList {
    items: Vec<InstanceId>,
}

impl Model for RisingList {
    ghost use Rattle.std.specs.Prelude.{ℕ, List};
    ghost use Rattle.ep_base.specs.Deps.{IsDeps};

    ghost Value = { List ℕ };

    ghost view = { λ r. r.items.items };

    ghost invariant = { λ r. IsDeps r.items.items };
}

impl RisingList {
    /// No instances.
    pub fn new(alloc: Global) -> RisingList
        ensures { result ≡ [] }
    {
        RisingList {
            items: Vec::new(alloc),
        }
    }

    /// No instances, with room for this many.
    pub fn with_room(alloc: Global, room: usize) -> Result<RisingList, AllocError>
        ensures { IfOk result (λ r. r ≡ []) }
    {
        let items = Vec::with_capacity(alloc, room)?;
        Ok(RisingList { items })
    }

    /// Adds an instance, which is above the last one. At an `Err` the list is as it was.
    pub fn push(&mut self, instance: InstanceId) -> Result<(), AllocError>
        requires { IsRising (self.old ++ instance ∷ []) }
        ensures ok { OnOk result (self.new ≡ self.old ++ instance ∷ []) }
        ensures err { OnErr result (self.new ≡ self.old) }
    {
        let _number = instance.number();
        self.items.push(instance)?;
        Ok(())
    }

    /// The set of these instances.
    pub fn into_deps(self) -> Deps
        ensures { result ≡ self }
    {
        let RisingList { items } = self;
        Deps::of_rising(items)
    }
}
