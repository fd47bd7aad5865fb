//! What a command of a machine outside touches.

/// The keys of a command of a machine of your own.
#[repr(C)]
pub struct Touching<'a> {
    /// A key.
    pub first: &'a [u8],
    /// A second one, which differs.
    pub second: &'a [u8],
    /// 0: there is no second key, and `second` is ignored.
    pub has_second: u8,
    /// 0: the command may change what belongs to the keys; else it only reads that.
    pub is_reading: u8,
}
