//! What is to be printed.

use crate::status::Status;

/// What is to be printed, and how the program ends then.
#[derive(Drop)]
pub struct Made {
    /// The bytes for standard output.
    pub text: Vec<u8>,
    /// How the program ends once they are written.
    pub status: Status,
}
