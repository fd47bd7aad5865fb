//! Lists of instances.

ghost use Rattle.std.specs.Prelude.{◌≡◌};

use ep_base::InstanceId;
use std::marker::Model;

/// Instances, in any order.
pub struct Instances {
    items: Vec<InstanceId>,
}

// (by hand, so that no crate above proves again how the parts are dropped)
impl Drop for Instances {
    fn drop(self) {
        let Instances { items } = self;
        drop(items);
    }
}

impl Model for Instances {
    ghost use Rattle.std.specs.Prelude.{ℕ, List};

    ghost Value = { List ℕ };

    ghost view = { λ i. i.items.items };
}

impl Instances {
    /// These instances.
    pub(crate) fn new(items: Vec<InstanceId>) -> Instances
        ensures { result ≡ items.items }
    {
        Instances { items }
    }

    /// The instances.
    pub fn as_slice(&self) -> &[InstanceId]
        ensures { result.now ≡ self.now }
    {
        self.items.as_slice()
    }
}
