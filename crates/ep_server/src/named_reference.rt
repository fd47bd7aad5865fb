//! A reference with its digest.

use ep_opening::OpeningReference;

/// A reference, and its digest, by which the log of its generation names it.
#[derive(Drop)]
pub struct NamedReference {
    pub reference: OpeningReference,
    pub digest: [u8; 32],
}
