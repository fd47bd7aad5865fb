//! What is reported of a script.

/// Whether a script is read, and what is said of it.
#[derive(Drop)]
pub struct Advice {
    pub is_read: bool,
    pub text: Vec<u8>,
}
