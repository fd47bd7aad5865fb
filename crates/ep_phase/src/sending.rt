//! What an event sends.

use crate::receivers::Receivers;
use ep_base::Ballot;

/// What is sent, and who gets it.
#[derive(Drop)]
pub struct Sending {
    pub to: Receivers,
    pub what: What,
}

/// What a message says of an instance. A decree is the one that the change votes for, or else the one of the replica's last vote;
/// a vote is that last vote.
#[derive(Clone, Copy, Debug, PartialEq, Eq)]
pub enum What {
    /// The decree, to be pre-accepted at the ballot.
    PreAccept(Ballot),
    /// The decree's attributes, with which it is pre-accepted at the ballot.
    PreAcceptOk(Ballot),
    /// The decree, to be accepted at the ballot.
    Accept(Ballot),
    /// That it is accepted at the ballot.
    AcceptOk(Ballot),
    /// The decree, which is committed.
    Commit,
    /// That the ballot is led, and votes are asked for.
    Prepare(Ballot),
    /// The vote, and that the ballot is joined.
    PrepareOk(Ballot),
    /// That the first ballot is refused, since the second one is promised.
    Nack(Ballot, Ballot),
}
