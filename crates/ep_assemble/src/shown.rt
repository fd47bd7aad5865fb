//! A map that is shown.

use crate::assembled::End;

/// A map that is shown.
#[derive(Drop)]
pub struct Shown {
    /// The lines.
    pub text: Vec<u8>,
    /// The end of the log.
    pub end: End,
}
