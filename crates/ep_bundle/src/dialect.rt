//! What receipts are spelled in.

use ep_base::{Size, Version};

/// What receipts are spelled in: a version, in version 3 with its generation, and the size of a cluster.
#[derive(Clone, Copy, Debug, PartialEq, Eq)]
pub struct Dialect {
    /// The version.
    pub version: Version,
    /// The cluster's size.
    pub size: Size,
}
