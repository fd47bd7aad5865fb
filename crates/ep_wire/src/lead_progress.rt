//! What a replica leads in an instance.

/// The phase in which a replica leads an instance, with how many other replicas have answered.
#[derive(Clone, Copy, Debug, PartialEq, Eq)]
pub enum LeadProgress {
    /// Phase 1.
    Proposing(u8),
    /// The accept phase.
    Accepting(u8),
    /// Explicit prepare.
    Preparing(u8),
}
