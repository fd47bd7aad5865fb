//! Why journals are not a cluster's.

use ep_base::ReplicaId;
use thiserror::Error;

/// Why journals are not a cluster's: the first of these, in this order. Of `Twice` and `Missing`, the one of the lowest
/// replica.
#[derive(Clone, Copy, Debug, PartialEq, Eq, Error)]
pub enum CollectFault {
    /// There is no journal.
    #[error("no journal")]
    NoJournal,
    /// The journal at this place, counted from 0, is of another size, version or opening than the first one; it is the first such.
    #[error("another cluster at {0}")]
    OtherCluster(usize),
    /// The replica has more than one journal.
    #[error("two journals of one replica")]
    Twice(ReplicaId),
    /// The replica has none.
    #[error("a replica without a journal")]
    Missing(ReplicaId),
}
