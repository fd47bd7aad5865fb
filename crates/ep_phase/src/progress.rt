//! How far a replica is with what it leads.

ghost use Rattle.std.specs.Prelude.{◌≡◌};
ghost use Rattle.ep_phase.specs.Progress.{progress_of};

use crate::counting::others;
use ep_base::{ReplicaId, Size};
use ep_rules::LedInstance;

/// The phase of a ballot that a replica leads in an instance.
#[derive(Clone, Copy, Debug, PartialEq, Eq)]
pub enum LeadPhase {
    /// Phase 1: PreAccepts are out.
    Proposing,
    /// The accept phase: Accepts are out.
    Accepting,
    /// Recovery: Prepares are out.
    Preparing,
}

/// The phase of what replica `me` leads, and how many other replicas answered in it, 0 to 6.
pub fn progress_of(size: Size, me: ReplicaId, led: &LedInstance) -> (LeadPhase, u8)
    ensures { result ≡ progress_of size me led.now }
{
    match led {
        LedInstance::Proposing(_, _, answers) => (LeadPhase::Proposing, others(size, me, answers)),
        LedInstance::Accepting(_, answers) => (LeadPhase::Accepting, others(size, me, answers)),
        LedInstance::Preparing(_, answers) => (LeadPhase::Preparing, others(size, me, answers)),
    }
}
