//! What stands before the journals of a bundle.

ghost use Rattle.std.specs.Prelude.{◌≡◌, ◌<◌, [], IfOk};
ghost use Rattle.ep_base.specs.Quorums.{size};
ghost use Rattle.ep_journal.specs.Openings.{OpensIn};

use ep_base::{ReplicaId, Size, Version};
use ep_journal::{Beginning, Journal, Opening};
use std::alloc::{AllocError, Global};

/// The version of a bundle, the size of its cluster, what its replicas open with, and how many receipts there are.
#[derive(Drop)]
pub struct BundleHeader {
    pub version: Version,
    pub cluster: Size,
    pub opening: Opening,
    pub receipts: u32,
}

impl BundleHeader {
    /// The journal of this replica of the cluster, of the bundle's version and opening, with no entries.
    pub fn journal(&self, alloc: Global, replica: ReplicaId) -> Result<Journal, AllocError>
        requires replica { replica < size self.now.cluster }
        requires opens { OpensIn self.now.version self.now.opening }
        ensures { IfOk result (λ j. j ≡ record { version = self.now.version; faults = self.now.cluster; me = replica; opening = self.now.opening; entries = [] }) }
    {
        let opening = self.opening.copy(alloc)?;
        let beginning = Beginning::opened(alloc, self.version, opening)?;
        Ok(Journal::new(alloc, self.cluster, replica, beginning))
    }
}
