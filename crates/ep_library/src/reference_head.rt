//! What a reference says.

/// What a reference says (docs/FORMATS.md, section 12.3). The SHA-256 of its log's bytes stands from byte 18 on, and
/// from byte 50 on its own digest.
#[repr(C)]
#[derive(Clone, Copy)]
pub struct ReferenceHead {
    /// How many bytes its log has.
    pub length: u64,
    /// The generation after that log, from 2.
    pub generation: u32,
    /// How many replicas that has.
    pub replicas: u8,
}
