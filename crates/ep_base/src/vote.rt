//! Votes.

ghost use Rattle.std.specs.Prelude.{◌≡◌, IfOk};

use crate::ballot::Ballot;
use crate::decree::Decree;
use std::alloc::{AllocError, Global};

/// How far a vote goes (EPaxos, section 4.3).
#[derive(Clone, Copy, Debug, PartialEq, Eq)]
pub enum VoteStatus {
    PreAccepted,
    Accepted,
    Committed,
}

/// What a replica last voted for in an instance, and at which ballot (Sutra, 2019: the last ballot in which it voted).
#[derive(Drop)]
pub struct Vote {
    pub status: VoteStatus,
    pub ballot: Ballot,
    pub decree: Decree,
}

impl Vote {
    /// The same vote again.
    pub fn copy(&self, alloc: Global) -> Result<Vote, AllocError>
        ensures { IfOk result (λ v. v ≡ self.now) }
    {
        let decree = self.decree.copy(alloc)?;
        Ok(Vote {
            status: self.status,
            ballot: self.ballot,
            decree,
        })
    }
}
