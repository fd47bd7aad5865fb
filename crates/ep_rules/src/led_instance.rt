//! What a replica leads in an instance.

ghost use Rattle.std.specs.Prelude.{◌≡◌, IfOk};

use crate::answers::Answers;
use crate::duplicate::Duplicate;
use ep_base::{Attrs, Ballot, ReplicaId, Vote};
use std::alloc::{AllocError, Global};

/// What a replica leads in an instance: a ballot, and the answers so far.
#[derive(Drop)]
pub enum LedInstance {
    /// Phase 1: the replica that isn't asked, beside the leader (at a recovery ballot, where all others are, the leader
    /// itself), and the attributes with which replicas pre-accepted.
    Proposing(Ballot, ReplicaId, Answers<Attrs>),
    /// The accept phase: who accepted.
    Accepting(Ballot, Answers<()>),
    /// Explicit prepare: the last votes, the leader's own among them.
    Preparing(Ballot, Answers<Option<Vote>>),
}

impl LedInstance {
    /// A copy of what is led.
    pub fn copy(&self, alloc: Global) -> Result<LedInstance, AllocError>
        ensures { IfOk result (λ l. l ≡ self.now) }
    {
        match self {
            LedInstance::Proposing(ballot, spared, answers) => {
                Ok(LedInstance::Proposing(*ballot, *spared, answers.copy(alloc)?))
            }
            LedInstance::Accepting(ballot, answers) => Ok(LedInstance::Accepting(
                *ballot,
                answers.copy(alloc)?,
            )),
            LedInstance::Preparing(ballot, answers) => Ok(LedInstance::Preparing(
                *ballot,
                answers.copy(alloc)?,
            )),
        }
    }
}

impl Duplicate for LedInstance {
    fn duplicate(&self, alloc: Global) -> Result<LedInstance, AllocError> {
        self.copy(alloc)
    }
}
