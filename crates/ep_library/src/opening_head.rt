//! What an opening file says before its map.

/// What an opening file says before its map (docs/FORMATS.md, section 12).
#[repr(C)]
#[derive(Clone, Copy)]
pub struct OpeningHead {
    /// The stamp that clocks go on from.
    pub base_stamp: u64,
    /// At which of the file's bytes its map begins, by how many keys that has (4 bytes).
    pub map_at: u64,
    /// The generation.
    pub generation: u32,
    /// How many bytes the value of the seal has that began the generation, from byte 23 on; 0 of generation 1.
    pub seal_len: u32,
    /// How many keys have a value.
    pub keys: u32,
    /// How many replicas the cluster has.
    pub replicas: u8,
    /// 1: a seal began the generation; 0 of generation 1.
    pub has_seal: u8,
}
