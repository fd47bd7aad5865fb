//! Heads of scripts.

ghost use Rattle.std.specs.Prelude.{◌≡◌};
ghost use Rattle.ep_base.specs.declared.version_kind.VersionKind.TheVariants.{V3};
ghost use Rattle.ep_script.specs.Heads.{OpensIn, first_head};

use crate::script_opening::ScriptOpening;
use ep_base::{Generation, Size, Version};
use std::alloc::Global;
use std::marker::Model;

/// What the head of a script says: the size of its cluster, the version, and what the replicas open with. A script is of version 3 where it has
/// a line `generation G`, and else of version 2, which opens with nothing.
#[derive(Debug, Drop)]
pub struct Head {
    size: Size,
    version: Version,
    opening: ScriptOpening,
}

impl Model for Head {
    ghost use Rattle.ep_script.specs.Heads as heads;

    ghost Value = { heads.Head };

    ghost view = { λ h. record { faults = h.size; version = h.version; opening = h.opening } };

    ghost invariant = { λ h. heads.OpensIn h.version h.opening };
}

impl Head {
    /// The head of a script with no line `generation G`.
    pub(crate) fn first(alloc: Global, size: Size) -> Head
        ensures { result ≡ first_head size }
    {
        Head {
            size,
            version: Version::V2,
            opening: ScriptOpening::none(alloc),
        }
    }

    /// The head of a script of this generation.
    pub(crate) fn of_generation(size: Size, generation: Generation, opening: ScriptOpening) -> Head
        ensures { result ≡ record { faults = size; version = V3 generation; opening = opening } }
    {
        Head {
            size,
            version: Version::of_generation(generation),
            opening,
        }
    }

    /// The size of the cluster.
    pub fn size(&self) -> Size
        ensures { result ≡ self.now.faults }
    {
        self.size
    }

    /// The version, 2 or 3, in version 3 with the generation.
    pub fn version(&self) -> Version
        ensures value { result ≡ self.now.version }
        ensures opens { OpensIn self.now.version self.now.opening }
    {
        self.version
    }

    /// What the replicas open with.
    pub fn opening(&self) -> &ScriptOpening
        ensures { result.now ≡ self.now.opening }
    {
        &self.opening
    }
}
