//! Where bytes are refused.

/// Where bytes are refused: as the status says, an offset counted from 0, or a number.
#[repr(C)]
#[derive(Clone, Copy)]
pub struct Place {
    /// The first number of which the status speaks; else 0.
    pub at: u64,
    /// The second one; else 0.
    pub by: u64,
}
