//! What is reported of bytes.

use crate::finding::Finding;

/// What is found of bytes that are to be a bundle or a script, and why, in words.
#[derive(Drop)]
pub struct Explained {
    pub finding: Finding,
    pub text: Vec<u8>,
}
