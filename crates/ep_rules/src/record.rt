//! What a replica recorded of an instance.

ghost use Rattle.std.specs.Prelude.{◌≡◌, IfOk};
ghost use Rattle.ep_base.specs.Instances.{leader_of};
ghost use Rattle.ep_rules.specs.Cells.{fresh_record};

use crate::duplicate::Duplicate;
use ep_base::{Ballot, InstanceId, Vote};
use std::alloc::{AllocError, Global};

/// What a replica recorded of an instance: the last ballot that it joined, and its last vote, if it voted
/// (Sutra, 2019: the two ballots that a replica keeps).
#[derive(Drop)]
pub struct Record {
    pub promised: Ballot,
    pub vote: Option<Vote>,
}

impl Record {
    /// The record of an instance that nothing is known of: the default ballot, and no vote.
    pub fn fresh(instance: InstanceId) -> Record
        ensures { result ≡ fresh_record instance }
    {
        Record {
            promised: Ballot::default_of(instance.replica()),
            vote: None,
        }
    }

    /// The same record again.
    pub fn copy(&self, alloc: Global) -> Result<Record, AllocError>
        ensures { IfOk result (λ r. r ≡ self.now) }
    {
        let vote = self.vote.duplicate(alloc)?;
        Ok(Record {
            promised: self.promised,
            vote,
        })
    }
}

impl Duplicate for Record {
    fn duplicate(&self, alloc: Global) -> Result<Record, AllocError> {
        self.copy(alloc)
    }
}
