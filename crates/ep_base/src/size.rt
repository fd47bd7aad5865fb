//! Sizes of clusters.

ghost use Rattle.std.specs.Prelude.{◌≡◌, ◌≤◌, ◌↔◌, ◌⊎◌, IsOk, IfOk};
ghost use Rattle.ep_base.specs.Quorums.{size, usual, spared, may_spare, is_member};

use crate::replica_id::ReplicaId;
use std::marker::Model;
use thiserror::Error;

/// A cluster has 3, 5 or 7 replicas.
#[derive(Clone, Copy, Debug, PartialEq, Eq, Error)]
#[error("bad size")]
pub struct BadSize;

/// How many replicas a cluster has: two for each that may fail, and one.
#[derive(Clone, Copy, Debug, PartialEq, Eq)]
pub struct Size {
    faults: u8,
}

impl Model for Size {
    ghost use Rattle.std.specs.Prelude.{ℕ, ◌≤◌};

    ghost Value = { ℕ };

    ghost view = { λ s. s.faults };

    ghost invariant = { λ s. (1 ≤ s.faults) × (s.faults ≤ 3) };

    ghost inverse = { λ n. record { faults = n } };
}

impl Size {
    /// The size of a cluster of this many replicas; `BadSize` unless it is 3, 5 or 7.
    pub fn new(count: u8) -> Result<Size, BadSize>
        ensures in_range { IsOk result ↔ ((count ≡ 3) ⊎ (count ≡ 5) ⊎ (count ≡ 7)) }
        ensures value { IfOk result (λ s. size s ≡ count) }
    {
        match count {
            3 => Ok(Size { faults: 1 }),
            5 => Ok(Size { faults: 2 }),
            7 => Ok(Size { faults: 3 }),
            _ => Err(BadSize),
        }
    }

    /// How many of the replicas may fail: 1, 2 or 3.
    pub fn faults(self) -> u8
        ensures value { result ≡ self }
        ensures in_range { (1 ≤ result) × (result ≤ 3) }
    {
        self.faults
    }

    /// How many replicas there are: 3, 5 or 7.
    pub fn count(self) -> u8
        ensures value { result ≡ size self }
        ensures in_range { (3 ≤ result) × (result ≤ 7) }
    {
        let Size { faults } = self;
        2 * faults + 1
    }
}

/// The replica that the leader spares where its proposal names none: the one below it (the last one, for leader 0).
pub fn usually_spared(size: Size, leader: ReplicaId) -> ReplicaId
    ensures { result ≡ usual size leader }
{
    ReplicaId::from_valid((leader.index() + 2 * size.faults()) % size.count())
}

/// The replica that a proposal of the leader spares: the one that it names, or else the usual one.
pub fn spared_by(size: Size, leader: ReplicaId, named: Option<ReplicaId>) -> ReplicaId
    ensures { result ≡ spared size leader named }
{
    match named {
        None => usually_spared(size, leader),
        Some(spared) => spared,
    }
}

/// Whether a proposal of the leader may name this replica as the spared one, if it names one: another one of the cluster.
pub fn may_be_spared(size: Size, leader: ReplicaId, named: Option<ReplicaId>) -> bool
    ensures { result ≡ may_spare size leader named }
{
    match named {
        None => true,
        Some(spared) => spared.index() < size.count() && spared != leader,
    }
}

/// Whether the replica is of the fast quorum of an instance of the leader's: all replicas of the cluster are members but
/// the spared one. False if the leader or the replica is none of the cluster.
pub fn fast_member(size: Size, leader: ReplicaId, spared: ReplicaId, replica: ReplicaId) -> bool
    ensures { result ≡ is_member size leader spared replica }
{
    let count = size.count();
    leader.index() < count && replica.index() < count && replica != spared
}
