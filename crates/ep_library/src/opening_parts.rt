//! What an opening file is made of.

/// What an opening file is made of that no replica's log has led to.
#[repr(C)]
pub struct OpeningParts<'a> {
    /// The value of the seal, of at most 65,535 bytes, that is to stand for the one that began the generation.
    pub seal: &'a [u8],
    /// The map, as ep_contents lends one and opening files have it, with the number of its keys.
    pub map: &'a [u8],
    /// The stamp that clocks go on from.
    pub base_stamp: u64,
    /// The generation, from 2.
    pub generation: u32,
    /// How many replicas it has: 3, 5 or 7.
    pub replicas: u8,
}
