//! Which host has a run's replicas.

/// Which host has a run's replicas.
#[derive(Clone, Copy, Debug, PartialEq, Eq)]
pub enum Host {
    /// Replicas behind locks, each with an inbox.
    Lock,
    /// Nodes that own their replicas, with a ring for each ordered pair of them.
    Ring,
}
