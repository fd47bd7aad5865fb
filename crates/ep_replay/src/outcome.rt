//! What comes of an event that is tried.

use ep_base::ReplicaId;
use ep_journal::Refusal;

/// What came of an event that was tried.
#[derive(Drop)]
pub enum Outcome {
    /// It happened, as the replica's entry of this number, from 1; the messages that it sent are numbered from `first` on.
    Took {
        replica: ReplicaId,
        entry: u32,
        first: u64,
    },
    /// It was refused, for this cause.
    Refused(Refusal),
}
