//! Why parts are no opening file's.

use thiserror::Error;

/// Why parts are no opening file's: the first of these.
#[derive(Clone, Copy, Debug, PartialEq, Eq, Error)]
pub enum PartsFault {
    /// A seal began the first generation, or none a later one.
    #[error("a seal begins each generation but the first, which has none")]
    Seal,
    /// Instances were executed before the first generation.
    #[error("nothing is executed before the first generation")]
    Executed,
}
