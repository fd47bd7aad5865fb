//! What would end what is open.

ghost use Rattle.std.specs.Prelude.{OnOk};
ghost use Rattle.ep_ending.specs.Endings.{AddsEndings};

use crate::opened::push_all_open;
use crate::owed::push_each_owed;
use ep_journal::Journals;
use std::alloc::{AllocError, Global};

/// Appends a line for each instance that is open at a replica, in rising order: that it is to be recovered, and f+1 replicas that whoever
/// recovers it has to reach. Then, by replica, a line for each instance of its own that it has committed and not executed: that it is
/// to be executed, or what it has to commit first.
pub fn push_endings(
    alloc: Global,
    text: &mut Vec<u8>,
    journals: &Journals,
) -> Result<(), AllocError>
    ensures { OnOk result (AddsEndings journals.now text.old.items text.new.items) }
{
    push_all_open(text, journals)?;
    push_each_owed(alloc, text, journals)
}
