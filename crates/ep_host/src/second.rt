//! The start of version 2.

ghost use Rattle.std.specs.Prelude.{None};
ghost use Rattle.ep_base.specs.declared.version_kind.VersionKind.TheVariants.{V2};
ghost use Rattle.ep_journal.specs.Openings.{no_opening};

use crate::start::Start;

/// The start of version 2: with nothing, and with inboxes of any size.
pub struct Second;

impl Start for Second {
    ghost start = { (V2, no_opening) };

    ghost room = { None };
}
