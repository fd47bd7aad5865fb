//! Replicas that are chosen from a cluster.

ghost use Rattle.std.specs.Prelude.{◌≡◌, ◌<◌, ◌++◌, [], ◌∷◌, length};

use ep_base::ReplicaId;
use std::marker::Model;

/// Replicas, in the order in which they were chosen, at most seven.
#[derive(Drop)]
pub(crate) struct Chosen {
    items: [ReplicaId; 7],
    count: usize,
}

impl Model for Chosen {
    ghost use Rattle.std.specs.Prelude.{◌≤◌, List, ℕ, take};

    ghost Value = { List ℕ };

    ghost view = { λ c. take c.count c.items };

    ghost invariant = { λ c. c.count ≤ 7 };
}

impl Chosen {
    /// None yet; any replica fills the places.
    pub fn none(any: ReplicaId) -> Chosen
        ensures { result ≡ [] }
    {
        Chosen {
            items: [any; 7],
            count: 0,
        }
    }

    /// One more.
    pub fn push(&mut self, replica: ReplicaId)
        requires { length self.old < 7 }
        ensures { self.new ≡ self.old ++ replica ∷ [] }
    {
        self.items[self.count] = replica;
        self.count += 1;
    }

    /// All of them.
    pub fn as_slice(&self) -> &[ReplicaId]
        ensures { result.now ≡ self.now }
    {
        &self.items[..self.count]
    }
}
