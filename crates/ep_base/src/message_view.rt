//! A message about an instance, borrowed.

ghost use Rattle.std.specs.Prelude.{◌≡◌};
ghost use Rattle.ep_base.specs.Messages.{instance_of_message, says};

use crate::attrs::Attrs;
use crate::ballot::Ballot;
use crate::decree::Decree;
use crate::message::Message;
use crate::vote::Vote;

/// What a message about an instance says, its parts borrowed.
#[derive(Clone, Copy)]
pub enum MessageView<'a> {
    /// The leader of the ballot asks for a vote in its first phase.
    PreAccept(Ballot, &'a Decree),
    /// The sender voted, for the command with these attributes.
    PreAcceptOk(Ballot, &'a Attrs),
    /// The leader of the ballot asks for a vote to accept.
    Accept(Ballot, &'a Decree),
    /// The sender accepted.
    AcceptOk(Ballot),
    /// The decree is committed.
    Commit(&'a Decree),
    /// The leader of the ballot asks what its receiver last voted for, and to vote at no lower ballot.
    Prepare(Ballot),
    /// The sender joined the ballot; its last vote before that, if it voted.
    PrepareOk(Ballot, Option<&'a Vote>),
    /// The first ballot was refused, since the second, a higher one, is promised.
    Nack(Ballot, Ballot),
}

impl Message {
    /// What the message says of its instance.
    pub fn said(&self) -> MessageView<'_>
        ensures { says (instance_of_message self.now) result ≡ self.now }
    {
        match self {
            Message::PreAccept {
                instance: _,
                ballot,
                decree,
            } => MessageView::PreAccept(*ballot, decree),
            Message::PreAcceptOk {
                instance: _,
                ballot,
                attrs,
            } => MessageView::PreAcceptOk(*ballot, attrs),
            Message::Accept {
                instance: _,
                ballot,
                decree,
            } => MessageView::Accept(*ballot, decree),
            Message::AcceptOk {
                instance: _,
                ballot,
            } => MessageView::AcceptOk(*ballot),
            Message::Commit {
                instance: _,
                decree,
            } => MessageView::Commit(decree),
            Message::Prepare {
                instance: _,
                ballot,
            } => MessageView::Prepare(*ballot),
            Message::PrepareOk {
                instance: _,
                ballot,
                vote,
            } => MessageView::PrepareOk(*ballot, vote.as_ref()),
            Message::Nack {
                instance: _,
                refused,
                promised,
            } => MessageView::Nack(*refused, *promised),
        }
    }
}
