//! The file of the next generation, in place of a replica.

ghost use Rattle.std.specs.Prelude.{◌≡◌, IfOk, IfErr};
ghost use Rattle.ep_opening.specs.Closing.{IsClosing};
ghost use Rattle.ep_node.specs.Closing.{IsUnsealed};

use crate::close_fault::CloseFault;
use ep_base::Size;
use ep_opening::{OpeningFile, closing_from};
use ep_replica::Replica;
use std::alloc::Global;

/// The file that the next generation opens with, in a cluster of this size, and no longer the replica.
pub(crate) fn closed(alloc: Global, replica: Replica, next: Size) -> Result<OpeningFile, CloseFault>
    ensures ok { IfOk result (λ file. IsClosing replica next file) }
    ensures err { IfErr result (λ fault. IsUnsealed replica fault) }
{
    let file = closing_from(alloc, replica.into_journal(), next)?;
    Ok(file)
}
