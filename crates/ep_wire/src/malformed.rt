//! Why a whole request is none.

use crate::request_field::RequestField;

/// The first field of a request, in their order, that is wrong, or that the request's end cuts.
#[derive(Clone, Copy, Debug, PartialEq, Eq)]
pub struct Malformed {
    /// The field.
    pub field: RequestField,
    /// The offset of its first byte in the request, counted from 0 at the first byte of the request's length.
    pub at: u64,
}
