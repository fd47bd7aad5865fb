//! Bytes that are lent.

/// A run of bytes: where it begins, and how many they are.
#[repr(C)]
pub struct Lent {
    /// Where the first of them stands. Where there is none, it may be any address.
    pub at: *const u8,
    /// How many they are.
    pub len: usize,
}
