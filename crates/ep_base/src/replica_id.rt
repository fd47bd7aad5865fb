//! Replicas of a cluster.

ghost use Rattle.std.specs.Prelude.{◌≡◌, ◌≤◌, ◌↔◌, IsOk, IfOk};

use crate::out_of_range::OutOfRange;
use std::marker::Model;

/// A replica's number, from 0 to 6.
#[derive(Clone, Copy, Debug, PartialEq, Eq, PartialOrd, Ord, Hash)]
pub struct ReplicaId {
    index: u8,
}

impl Model for ReplicaId {
    ghost use Rattle.std.specs.Prelude.{ℕ, ◌≤◌};

    ghost Value = { ℕ };

    ghost view = { λ r. r.index };

    ghost invariant = { λ r. r.index ≤ 6 };

    ghost inverse = { λ n. record { index = n } };
}

impl ReplicaId {
    /// The replica of this number; `OutOfRange` above 6.
    pub fn new(index: u8) -> Result<ReplicaId, OutOfRange>
        ensures in_range { IsOk result ↔ (index ≤ 6) }
        ensures value { IfOk result (λ r. r ≡ index) }
    {
        if index > 6 {
            return Err(OutOfRange);
        }
        Ok(ReplicaId { index })
    }

    /// The replica of this number, which is 0 to 6.
    pub fn from_valid(index: u8) -> ReplicaId
        requires { index ≤ 6 }
        ensures { result ≡ index }
    {
        ReplicaId { index }
    }

    /// The replica's number, from 0 to 6.
    pub fn index(self) -> u8
        ensures value { result ≡ self }
        ensures in_range { result ≤ 6 }
    {
        self.index
    }
}

impl ReplicaId {
    /// Replica 0.
    pub fn first() -> ReplicaId
        ensures { result ≡ 0 }
    {
        ReplicaId { index: 0 }
    }
}
