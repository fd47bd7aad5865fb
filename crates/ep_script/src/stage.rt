//! How far a script has been read.

use crate::open_head::OpenHead;
use ep_base::Size;

/// What the first lines of a script say.
#[derive(Drop)]
pub(crate) enum Stage<P> {
    /// Nothing: all of them are skipped.
    Before,
    /// `replicas N`, and nothing else.
    Sized(Size),
    /// The head of a script of version 3, which may go on.
    Opening(OpenHead),
    /// The head, and more.
    Within(P),
}
