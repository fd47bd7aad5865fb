//! A log whose generation is closed.

/// A log whose generation is closed, and the generation that opens with what it leaves.
#[repr(C)]
pub struct ClosedLog<'a> {
    /// The SHA-256 of the log's bytes, of 32 bytes.
    pub sum: &'a [u8],
    /// How many bytes it has.
    pub length: u64,
    /// The generation after it, from 2.
    pub generation: u32,
    /// How many replicas that has: 3, 5 or 7.
    pub replicas: u8,
}
