//! Fields that are refused.

use crate::bundle_field::BundleField;
use crate::wanted::Wanted;

/// A field that is refused: the first one at fault.
#[derive(Clone, Copy, Debug, PartialEq, Eq)]
pub struct BadField {
    /// The offset of its first byte, counted from 0. Offsets stop at 2^64 - 1.
    pub at: u64,
    /// Which one it is.
    pub name: BundleField,
    /// How many bytes it has.
    pub len: u64,
    /// What may stand there.
    pub wanted: Wanted,
}
