//! Instances.

ghost use Rattle.std.specs.Prelude.{ℕ, ◌≡◌, ◌≤◌, ◌↔◌, IsOk, IfOk};
ghost use Rattle.ep_base.specs.Instances.{instance_of, leader_of, number_of, highest_number, IsInstance};

use crate::out_of_range::OutOfRange;
use crate::replica_id::ReplicaId;
use std::marker::Model;

/// An instance: the replica that leads it and a number from 1 to 9,000. Instances are ordered by replica, then by number.
#[derive(Clone, Copy, Debug, PartialEq, Eq, PartialOrd, Ord, Hash)]
pub struct InstanceId {
    place: u32,
}

impl Model for InstanceId {
    ghost use Rattle.std.specs.Prelude.{ℕ};
    ghost use Rattle.ep_base.specs.Instances.{IsInstance};

    ghost Value = { ℕ };

    ghost view = { λ i. i.place };

    ghost invariant = { λ i. IsInstance i.place };

    ghost inverse = { λ v. record { place = v } };
}

/// The first instance that replica 0 leads, which stands where a list's own places are free.
impl Default for InstanceId {
    ghost use Rattle.std.specs.Prelude.{◌≡◌};

    ghost is_default = { λ i. i ≡ 1 };

    fn default() -> InstanceId {
        InstanceId { place: 1 }
    }
}

impl InstanceId {
    /// The highest number of an instance in any version.
    pub const HIGHEST_NUMBER: u16 = 9000;

    /// The instance of this number; `OutOfRange` unless it is 1 to 9,000.
    pub fn new(replica: ReplicaId, number: u16) -> Result<InstanceId, OutOfRange>
        ensures in_range { IsOk result ↔ ((1 ≤ number) × (number ≤ highest_number)) }
        ensures value { IfOk result (λ i. i ≡ instance_of replica number) }
    {
        if number == 0 || number > InstanceId::HIGHEST_NUMBER {
            return Err(OutOfRange);
        }
        Ok(InstanceId {
            place: u32::from(replica.index()) * 65536 + u32::from(number),
        })
    }

    /// The instance at this place: its number, plus 65,536 for each replica before its own; `OutOfRange` if there is none.
    pub fn at(place: u32) -> Result<InstanceId, OutOfRange>
        ensures in_range { IsOk result ↔ IsInstance place }
        ensures value { IfOk result (λ i. i ≡ place) }
    {
        let number = place % 65536;
        if place >= 458_752 || number == 0 || number > InstanceId::HIGHEST_NUMBER as u32 {
            return Err(OutOfRange);
        }
        Ok(InstanceId { place })
    }

    /// The instance of this place, which is one.
    pub fn from_valid(place: u32) -> InstanceId
        requires { IsInstance place }
        ensures { result ≡ place }
    {
        InstanceId { place }
    }

    /// The instance's place: its number, plus 65,536 for each replica before its own.
    pub fn place(self) -> u32
        ensures value { result ≡ self }
        ensures in_range { IsInstance self }
    {
        self.place
    }

    /// The replica that leads the instance.
    pub fn replica(self) -> ReplicaId
        ensures { result ≡ leader_of self }
    {
        ReplicaId::from_valid((self.place / 65536) as u8)
    }

    /// The instance's number among those that its replica leads, from 1 to 9,000.
    pub fn number(self) -> u16
        ensures value { result ≡ number_of self }
        ensures in_range { IsInstance self }
    {
        (self.place % 65536) as u16
    }

    /// The instance's number, or this one if that is greater.
    pub fn number_at_least(self, least: u16) -> u16
        ensures own { number_of self ≤ result }
        ensures least { least ≤ result }
        ensures most { (most : ℕ) → highest_number ≤ most → least ≤ most → result ≤ most }
        ensures in_range { IsInstance self }
    {
        let number = self.number();
        if number < least { least } else { number }
    }
}
