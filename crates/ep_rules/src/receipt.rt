//! What a client is answered of its command.

ghost use Rattle.std.specs.Prelude.{◌≡◌, IfOk};

use ep_base::{Answer, InstanceId, ReplicaId};
use std::alloc::{AllocError, Global};

/// A client's command, the greatest stamp that the client knew of when it proposed, and an execution with its answer.
#[derive(Drop)]
pub struct Receipt {
    /// The client; from 1 if a replica gave the receipt.
    pub client: u32,
    /// The client's request; from 1 if a replica gave the receipt.
    pub request: u32,
    /// The instance as which the command was proposed.
    pub instance: InstanceId,
    /// The stamp that the client handed in with its command; 0 if it knew of none.
    pub seen: u64,
    /// The replica that executed the instance.
    pub replica: ReplicaId,
    /// The number of the entry that executed it; from 1 if a replica gave the receipt.
    pub entry: u32,
    /// The stamp of that entry; from 1 to 2^48 - 1 if a replica gave the receipt.
    pub stamp: u64,
    /// What that execution answered.
    pub answer: Answer,
}

impl Receipt {
    /// The same receipt again.
    pub fn copy(&self, alloc: Global) -> Result<Receipt, AllocError>
        ensures { IfOk result (λ r. r ≡ self.now) }
    {
        let answer = self.answer.copy(alloc)?;
        Ok(Receipt {
            client: self.client,
            request: self.request,
            instance: self.instance,
            seen: self.seen,
            replica: self.replica,
            entry: self.entry,
            stamp: self.stamp,
            answer,
        })
    }
}
