//! Versions of the formats.

ghost use Rattle.std.specs.Prelude.{◌≡◌, ◌≤◌, ◌↔◌, ◌⊎◌, IfSome, IsSome};
ghost use Rattle.ep_base.specs.Generations.{HasItsGeneration};
ghost use Rattle.ep_base.specs.Versions.{version_number, generation_of, version_of, highest_in, highest_for, most_deps_in, most_frame, knows, names};

use crate::command::Command;
use crate::generation::Generation;
use crate::instance_id::InstanceId;
use crate::replica_id::ReplicaId;
use crate::version_kind::VersionKind;
use std::marker::Model;

/// A version of the formats of frames and bundles, and in version 3 a generation. A replica, and what it leaves, is of one of them.
#[derive(Clone, Copy, Debug, PartialEq, Eq)]
pub struct Version {
    kind: VersionKind,
}

impl Model for Version {
    ghost use Rattle.ep_base.specs.declared.version_kind.VersionKind.{VersionKind};
    ghost use Rattle.ep_base.specs.Generations.{HasItsGeneration};

    ghost Value = { VersionKind };

    ghost view = { λ v. v.kind };

    ghost invariant = { λ v. HasItsGeneration v.kind };

    ghost inverse = { λ k. record { kind = k } };
}

impl Version {
    /// The first version.
    pub const V1: Version = Version {
        kind: VersionKind::V1,
    };
    /// The second version.
    pub const V2: Version = Version {
        kind: VersionKind::V2,
    };

    /// Version 3 of this generation.
    pub fn of_generation(generation: Generation) -> Version
        ensures { result ≡ VersionKind.V3 generation }
    {
        Version {
            kind: VersionKind::V3(generation.number()),
        }
    }

    /// The version with this number, and for 3 with this generation (1 or more): 1, 3, or else 2.
    pub fn from_valid(number: u8, generation: u32) -> Version
        requires { number ≡ 3 → 1 ≤ generation }
        ensures { result ≡ version_of number generation }
    {
        match number {
            1 => Version::V1,
            3 => Version {
                kind: VersionKind::V3(generation),
            },
            _ => Version::V2,
        }
    }

    /// What the version is.
    pub fn kind(self) -> VersionKind
        ensures value { result ≡ self }
        ensures generation { HasItsGeneration result }
    {
        self.kind
    }

    /// The version of this number that has no generation, 1 or 2; there is no other.
    pub fn of_number(number: u8) -> Option<Version>
        ensures found { IfSome result (λ v. number ≡ version_number v) }
        ensures only { IsSome result ↔ ((number ≡ 1) ⊎ (number ≡ 2)) }
    {
        match number {
            1 => Some(Version::V1),
            2 => Some(Version::V2),
            _ => None,
        }
    }

    /// The version's number, 1 to 3.
    pub fn number(self) -> u8
        ensures { result ≡ version_number self }
    {
        match self.kind {
            VersionKind::V1 => 1,
            VersionKind::V2 => 2,
            VersionKind::V3(_) => 3,
        }
    }

    /// The generation's number; 0 in versions 1 and 2, which have none.
    pub fn generation(self) -> u32
        ensures { result ≡ generation_of self }
    {
        match self.kind {
            VersionKind::V1 | VersionKind::V2 => 0,
            VersionKind::V3(generation) => generation,
        }
    }

    /// The highest number of an instance.
    pub fn highest_number(self) -> u16
        ensures { result ≡ highest_in self }
    {
        match self.kind {
            VersionKind::V1 => 1000,
            VersionKind::V2 => 2000,
            VersionKind::V3(_) => InstanceId::HIGHEST_NUMBER,
        }
    }

    /// The highest number of an instance in which the command is proposed: in version 3 the last ten are for seals.
    pub fn highest_for(self, command: &Command) -> u16
        ensures { result ≡ highest_for self command.now }
    {
        match self.kind {
            VersionKind::V1 | VersionKind::V2 => self.highest_number(),
            VersionKind::V3(_) => {
                if command.is_seal() {
                    self.highest_number()
                } else {
                    8990
                }
            }
        }
    }

    /// How many dependencies there are at most, one to each instance.
    pub fn most_deps(self) -> u16
        ensures { result ≡ most_deps_in self }
    {
        match self.kind {
            VersionKind::V1 => 7000,
            VersionKind::V2 => 14_000,
            VersionKind::V3(_) => 63_000,
        }
    }

    /// How many bytes a frame has at most, in bundles, logs and requests.
    pub fn most_frame(self) -> u32
        ensures { result ≡ most_frame self }
    {
        match self.kind {
            VersionKind::V1 | VersionKind::V2 => 65_535,
            VersionKind::V3(_) => 400_000,
        }
    }

    /// Whether the version has this command: version 1 has no swap, and neither it nor version 2 has comparisons, seals,
    /// commands of machines outside, or values of more than 1,024 bytes.
    pub fn knows(self, command: &Command) -> bool
        ensures { result ≡ knows self command.now }
    {
        match self.kind {
            VersionKind::V1 => !(command.is_swap() || (command.is_late() || command.is_long())),
            VersionKind::V2 => !(command.is_late() || command.is_long()),
            VersionKind::V3(_) => true,
        }
    }

    /// Whether a proposal of the version may name the replica that it spares: in version 3 alone.
    pub fn names(self, spared: Option<ReplicaId>) -> bool
        ensures { result ≡ names self spared }
    {
        match self.kind {
            VersionKind::V1 | VersionKind::V2 => spared.is_none(),
            VersionKind::V3(_) => true,
        }
    }
}
