//! What the folder of a generation has.

/// What the folder of a generation has (docs/FORMATS.md, section 13).
#[repr(C)]
#[derive(Clone, Copy)]
pub struct HeldGeneration {
    /// The generation, from 1.
    pub number: u32,
    /// The later generation that its mark names, as ep_left_in reads it; 0 where it has no mark.
    pub left_for: u32,
    /// 0: its opening isn't there.
    pub has_opening: u8,
    /// 0: no reference is there.
    pub has_reference: u8,
    /// 0: no binding is there that has the digests of both.
    pub is_bound: u8,
}
