//! What the next generation begins as.

/// What the next generation begins as.
#[repr(C)]
pub struct Succession<'a> {
    /// The digest that its log names, of 32 bytes: the last ones of ep_reference's, or of an opening file.
    pub digest: &'a [u8],
    /// All bytes of its log; none of a new replica.
    pub log: &'a [u8],
    /// How many replicas it has: 3, 5 or 7.
    pub replicas: u8,
    /// Which of them this is, from 0.
    pub replica: u8,
    /// 0: the replica goes on from this log, as after a start; else it is new there.
    pub is_new: u8,
}
