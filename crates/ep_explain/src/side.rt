//! One of two frames that differ.

/// The bytes of a frame, and what they are called.
#[derive(Drop)]
pub(crate) struct Side<'a> {
    pub name: &'a [u8],
    pub bytes: &'a [u8],
}
