//! Why bytes are no frame.

use thiserror::Error;

/// What is wrong with the bytes: the first fault, from left to right.
#[derive(Clone, Copy, Debug, PartialEq, Eq, Error)]
pub enum FrameFault {
    /// Fewer than 40 bytes, or fewer than 48 where byte 2 is 3.
    #[error("fewer bytes than a header has")]
    Short,
    /// The first two bytes are not `EP`.
    #[error("not a frame")]
    Magic,
    /// Byte 2 is none of 1, 2 and 3.
    #[error("unknown version")]
    Version,
    /// Byte 3 is not 1 to 8.
    #[error("unknown kind")]
    Kind,
    /// A field of the header is not allowed; the place of the first such field.
    #[error("the field at {0} is not allowed")]
    Field(u8),
    /// The length is not that of the header, the keys, the body and three bytes to each dependency.
    #[error("wrong length")]
    Length,
    /// A dependency is no instance of the version, or is not above the one before it.
    #[error("the dependencies are not in order")]
    Order,
    /// The two keys are the same.
    #[error("the two keys are the same")]
    SameKey,
    /// The body doesn't fit the op: a comparison's is what it expects and what is new, that of a command over many keys its
    /// items, with nothing left over.
    #[error("the body does not fit the op")]
    Body,
    /// The frame is of the state's version, but of another generation. `Frame::read` never reports it.
    #[error("of another generation")]
    Generation,
}
