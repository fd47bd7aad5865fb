//! Replies and answers.

ghost use Rattle.std.specs.Prelude.{◌≡◌, ◌↔◌, IsTrue, IfOk};
ghost use Rattle.ep_base.specs.Sameness.{same_reply, same_answer};

use crate::reply_values::ReplyValues;
use crate::value::Value;
use std::alloc::{AllocError, Global};

/// What a command's key had just before the command; or that the map was closed then; or, to a command of a machine outside, that it is
/// in order; or whether a command over many keys wrote, and what those that it reports had.
#[derive(Debug, Drop)]
pub enum Reply {
    /// The key had no value.
    Absent,
    /// The key had this value.
    Present(Value),
    /// A seal stands before the command, which changed nothing.
    Closed,
    /// The command is one of a machine outside, and has its place in the order.
    Ordered,
    /// The guards of a command over many keys held, and it wrote; each key that it reports had this just before.
    Done(ReplyValues),
    /// They didn't, and it wrote nothing.
    Undone(ReplyValues),
}

impl Reply {
    /// A copy of the reply.
    pub fn copy(&self, alloc: Global) -> Result<Reply, AllocError>
        ensures { IfOk result (λ r. r ≡ self.now) }
    {
        match self {
            Reply::Absent => Ok(Reply::Absent),
            Reply::Present(value) => Ok(Reply::Present(value.copy(alloc)?)),
            Reply::Closed => Ok(Reply::Closed),
            Reply::Ordered => Ok(Reply::Ordered),
            Reply::Done(reported) => Ok(Reply::Done(reported.copy(alloc)?)),
            Reply::Undone(reported) => Ok(Reply::Undone(reported.copy(alloc)?)),
        }
    }

    /// Whether both are one reply.
    pub fn is_same(&self, other: &Reply) -> bool
        ensures test { result ≡ same_reply self.now other.now }
        ensures same { IsTrue result ↔ (self.now ≡ other.now) }
    {
        match (self, other) {
            (Reply::Absent, Reply::Absent) => true,
            (Reply::Present(value), Reply::Present(other_value)) => value.is_same(other_value),
            (Reply::Closed, Reply::Closed) => true,
            (Reply::Ordered, Reply::Ordered) => true,
            (Reply::Done(reported), Reply::Done(other_reported)) => reported.is_same(
                other_reported,
            ),
            (Reply::Undone(reported), Reply::Undone(other_reported)) => reported.is_same(
                other_reported,
            ),
            _ => false,
        }
    }
}

/// What an execution answers.
#[derive(Debug, Drop)]
pub enum Answer {
    /// A no-op took the proposal's place.
    Lost,
    /// The reply to the command.
    Replied(Reply),
}

impl Answer {
    /// A copy of the answer.
    pub fn copy(&self, alloc: Global) -> Result<Answer, AllocError>
        ensures { IfOk result (λ a. a ≡ self.now) }
    {
        match self {
            Answer::Lost => Ok(Answer::Lost),
            Answer::Replied(reply) => Ok(Answer::Replied(reply.copy(alloc)?)),
        }
    }

    /// Whether both are one answer.
    pub fn is_same(&self, other: &Answer) -> bool
        ensures test { result ≡ same_answer self.now other.now }
        ensures same { IsTrue result ↔ (self.now ≡ other.now) }
    {
        match (self, other) {
            (Answer::Lost, Answer::Lost) => true,
            (Answer::Replied(reply), Answer::Replied(other_reply)) => reply.is_same(other_reply),
            _ => false,
        }
    }
}
