//! The version that a bundle is upgraded to.

/// The version that a bundle is upgraded to.
#[derive(Clone, Copy, Debug, PartialEq, Eq)]
pub enum Target {
    /// Version 2.
    Second,
    /// Version 3.
    Third,
}
