//! What the replicas of a host start as, and how large their inboxes are.

ghost use Rattle.std.specs.Prelude.{ℕ, Option, None};
ghost use Rattle.ep_base.specs.declared.version.Version.{Version};
ghost use Rattle.ep_base.specs.declared.version_kind.VersionKind.TheVariants.{V2};
ghost use Rattle.ep_journal.specs.Openings.{Opening, no_opening};

use std::marker::Brand;

/// What all replicas of a host start as, their version and what they open with, and for how many frames their inboxes have room. A lock hides which
/// replica or which inbox it keeps, but not the type of it: so this stands in the types of a host behind locks.
///
/// `Second` is the start of version 2, with inboxes of any size. The start of a generation, and a size of which more is to be known, are known only as
/// the program runs: there the call of a function that is generic in this passes `Brand`, and its proof says which they are.
pub trait Start {
    ghost start: { Version × Opening };

    /// The size of the inboxes; none where nothing is to be known of it.
    ghost room: { Option ℕ };
}

impl Start for Brand {
    ghost start = { (V2, no_opening) };

    ghost room = { None };
}
