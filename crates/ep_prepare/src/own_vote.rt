//! A replica's own answer to a Prepare.

ghost use Rattle.std.specs.Prelude.{◌≡◌, IfOk};
ghost use Rattle.ep_phase.specs.InstanceViews.{record_of};

use ep_base::Vote;
use ep_phase::InstanceView;
use std::alloc::{AllocError, Global};

/// The replica's last vote in the instance again, if it voted.
pub(crate) fn own_vote(alloc: Global, cell: &InstanceView<'_>) -> Result<Option<Vote>, AllocError>
    ensures { IfOk result (λ v. v ≡ (record_of cell.now).vote) }
{
    match cell.vote() {
        None => Ok(None),
        Some(vote) => Ok(Some(vote.copy(alloc)?)),
    }
}
