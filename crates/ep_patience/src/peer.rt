//! What is known of a peer.

use crate::trip::Trip;

/// What is known of a peer.
#[derive(Clone, Copy, Debug, PartialEq, Eq)]
pub(crate) struct Peer {
    /// None where it was never measured.
    pub(crate) trip: Option<Trip>,
    /// Whether frames to it arrive, as far as the host knows.
    pub(crate) is_reached: bool,
}
