//! What replicas say to one another.

ghost use Rattle.std.specs.Prelude.{◌≡◌, IfOk};
ghost use Rattle.ep_base.specs.Messages.{instance_of_message};

use crate::attrs::Attrs;
use crate::ballot::Ballot;
use crate::decree::Decree;
use crate::instance_id::InstanceId;
use crate::vote::Vote;
use std::alloc::{AllocError, Global};

/// A message about an instance (EPaxos, figures 2 and 3).
#[derive(Drop)]
pub enum Message {
    /// The leader of the ballot asks for a vote in its first phase.
    PreAccept {
        instance: InstanceId,
        ballot: Ballot,
        decree: Decree,
    },
    /// The receiver voted, for the command with these attributes.
    PreAcceptOk {
        instance: InstanceId,
        ballot: Ballot,
        attrs: Attrs,
    },
    /// The leader of the ballot asks for a vote to accept.
    Accept {
        instance: InstanceId,
        ballot: Ballot,
        decree: Decree,
    },
    /// The receiver accepted.
    AcceptOk {
        instance: InstanceId,
        ballot: Ballot,
    },
    /// The decree is committed.
    Commit {
        instance: InstanceId,
        decree: Decree,
    },
    /// The leader of the ballot asks what its receiver last voted for, and to vote at no lower ballot.
    Prepare {
        instance: InstanceId,
        ballot: Ballot,
    },
    /// The receiver joined the ballot; its last vote before that, if it voted.
    PrepareOk {
        instance: InstanceId,
        ballot: Ballot,
        vote: Option<Vote>,
    },
    /// The ballot was refused, since a higher one is promised.
    Nack {
        instance: InstanceId,
        refused: Ballot,
        promised: Ballot,
    },
}

impl Message {
    /// The instance that the message is about.
    pub fn instance(&self) -> InstanceId
        ensures { result ≡ instance_of_message self.now }
    {
        match self {
            Message::PreAccept { instance, .. }
            | Message::PreAcceptOk { instance, .. }
            | Message::Accept { instance, .. }
            | Message::AcceptOk { instance, .. }
            | Message::Commit { instance, .. }
            | Message::Prepare { instance, .. }
            | Message::PrepareOk { instance, .. }
            | Message::Nack { instance, .. } => *instance,
        }
    }

    /// The same message again.
    pub fn copy(&self, alloc: Global) -> Result<Message, AllocError>
        ensures { IfOk result (λ m. m ≡ self.now) }
    {
        match self {
            Message::PreAccept {
                instance,
                ballot,
                decree,
            } => Ok(Message::PreAccept {
                instance: *instance,
                ballot: *ballot,
                decree: decree.copy(alloc)?,
            }),
            Message::PreAcceptOk {
                instance,
                ballot,
                attrs,
            } => Ok(Message::PreAcceptOk {
                instance: *instance,
                ballot: *ballot,
                attrs: attrs.copy(alloc)?,
            }),
            Message::Accept {
                instance,
                ballot,
                decree,
            } => Ok(Message::Accept {
                instance: *instance,
                ballot: *ballot,
                decree: decree.copy(alloc)?,
            }),
            Message::AcceptOk { instance, ballot } => Ok(Message::AcceptOk {
                instance: *instance,
                ballot: *ballot,
            }),
            Message::Commit { instance, decree } => Ok(Message::Commit {
                instance: *instance,
                decree: decree.copy(alloc)?,
            }),
            Message::Prepare { instance, ballot } => Ok(Message::Prepare {
                instance: *instance,
                ballot: *ballot,
            }),
            Message::PrepareOk {
                instance,
                ballot,
                vote,
            } => Ok(Message::PrepareOk {
                instance: *instance,
                ballot: *ballot,
                vote: copy_vote(vote, alloc)?,
            }),
            Message::Nack {
                instance,
                refused,
                promised,
            } => Ok(Message::Nack {
                instance: *instance,
                refused: *refused,
                promised: *promised,
            }),
        }
    }
}

fn copy_vote(vote: &Option<Vote>, alloc: Global) -> Result<Option<Vote>, AllocError>
    ensures { IfOk result (λ v. v ≡ vote.now) }
{
    match vote {
        None => Ok(None),
        Some(vote) => Ok(Some(vote.copy(alloc)?)),
    }
}
