//! A key and its value, as they stand in bytes.

/// A key and its value, as they stand in the bytes of a map.
#[repr(C)]
#[derive(Clone, Copy)]
pub struct Pair {
    /// How many bytes both take, with their lengths before them: behind these the next ones begin.
    pub len: u64,
    /// At which byte the key begins.
    pub key_at: u32,
    /// How many bytes it has.
    pub key_len: u32,
    /// At which byte the value begins.
    pub value_at: u32,
    /// How many bytes it has.
    pub value_len: u32,
}
