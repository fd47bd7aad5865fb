//! Compare and set.

/// What a key has to have, and what it then gets.
#[repr(C)]
pub struct Exchange<'a> {
    /// The value that the key has to have.
    pub expected: &'a [u8],
    /// The value that it then gets.
    pub desired: &'a [u8],
    /// 0: the key has to have no value, and `expected` is ignored.
    pub has_expected: u8,
    /// 0: the key then has no value, and `desired` is ignored.
    pub has_desired: u8,
}
