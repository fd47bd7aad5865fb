//! What the program has to do.

use crate::asked::Asked;
use crate::form::Form;

/// What the program has to do.
#[derive(Drop)]
pub enum Job {
    /// What reads standard input at most.
    Streams(Asked),
    /// To audit a chain of bundles, in the files with these names, and to say so in this form.
    Chain(Form, Vec<String>),
}
