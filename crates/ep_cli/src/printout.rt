//! What a command prints of files.

/// What a command prints of files.
#[derive(Drop)]
pub struct Printout {
    /// The bytes for standard output.
    pub text: Vec<u8>,
    /// The lines for standard error: one for each file whose end is torn.
    pub lines: Vec<u8>,
}
