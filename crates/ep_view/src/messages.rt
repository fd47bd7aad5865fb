//! Messages in words.

ghost use Rattle.std.specs.Prelude.{◌≡◌, ◌++◌, OnOk, Some};
ghost use Rattle.ep_base.specs.declared.message.Message.TheVariants as message;
ghost use Rattle.ep_frame.specs.Meaning.{message_at};
ghost use Rattle.ep_view.specs.Words.{ballot_text, attrs_text, decree_text, status_text, vote_text, about_text, message_text, origin_text};

use ep_base::{Attrs, Ballot, Decree, InstanceId, Message, Vote, VoteStatus};
use ep_frame::Frame;
use ep_report::{Part, push_parts};
use std::alloc::AllocError;

/// Appends a ballot: its counter and the replica that leads it.
pub fn push_ballot(text: &mut Vec<u8>, ballot: Ballot) -> Result<(), AllocError>
    ensures { OnOk result (text.new.items ≡ text.old.items ++ ballot_text ballot) }
{
    push_parts(
        text,
        &[
            Part::Text(b"("),
            Part::Number(ballot.counter() as u64),
            Part::Text(b", "),
            Part::Number(ballot.replica().index() as u64),
            Part::Text(b")"),
        ],
    )
}

fn push_attrs(text: &mut Vec<u8>, attrs: &Attrs) -> Result<(), AllocError>
    ensures { OnOk result (text.new.items ≡ text.old.items ++ attrs_text attrs.now) }
{
    push_parts(
        text,
        &[
            Part::Text(b" seq "),
            Part::Number(attrs.seq.number() as u64),
            Part::Text(b" deps "),
            Part::Deps(&attrs.deps),
        ],
    )
}

// Appends a command with its attributes.
fn push_decree(text: &mut Vec<u8>, decree: &Decree) -> Result<(), AllocError>
    ensures { OnOk result (text.new.items ≡ text.old.items ++ decree_text decree.now) }
{
    push_parts(text, &[Part::Text(b" "), Part::Command(&decree.command)])?;
    push_attrs(text, &decree.attrs)
}

fn status_words(status: VoteStatus) -> &'static [u8]
    ensures { result.now ≡ status_text status }
{
    match status {
        VoteStatus::PreAccepted => b"pre-accepted",
        VoteStatus::Accepted => b"accepted",
        VoteStatus::Committed => b"committed",
    }
}

fn push_given_vote(text: &mut Vec<u8>, vote: &Vote) -> Result<(), AllocError>
    ensures { OnOk result (text.new.items ≡ text.old.items ++ vote_text (Some vote.now)) }
{
    push_parts(
        text,
        &[
            Part::Text(b" vote "),
            Part::Text(status_words(vote.status)),
            Part::Text(b" at "),
        ],
    )?;
    push_ballot(text, vote.ballot)?;
    push_decree(text, &vote.decree)
}

fn push_vote(text: &mut Vec<u8>, vote: &Option<Vote>) -> Result<(), AllocError>
    ensures { OnOk result (text.new.items ≡ text.old.items ++ vote_text vote.now) }
{
    match vote {
        None => text.extend_from_slice(b" without a vote"),
        Some(vote) => push_given_vote(text, vote),
    }
}

// Appends a message's name, the instance that it is about, and its ballot.
fn push_about(
    text: &mut Vec<u8>,
    name: &[u8],
    instance: InstanceId,
    ballot: Ballot,
) -> Result<(), AllocError>
    ensures { OnOk result (text.new.items ≡ text.old.items ++ name.now ++ about_text instance ballot) }
{
    push_parts(
        text,
        &[
            Part::Text(name),
            Part::Instance(instance),
            Part::Text(b" ballot "),
        ],
    )?;
    push_ballot(text, ballot)
}

// Appends a message's name, the instance that it is about, its ballot, and a command with its attributes.
fn push_asked(
    text: &mut Vec<u8>,
    name: &[u8],
    instance: InstanceId,
    ballot: Ballot,
    decree: &Decree,
) -> Result<(), AllocError>
    ensures { OnOk result (text.new.items ≡ text.old.items ++ (name.now ++ about_text instance ballot ++ decree_text decree.now)) }
{
    push_about(text, name, instance, ballot)?;
    push_decree(text, decree)
}

// Appends a message's name, the instance that it is about, its ballot, and attributes.
fn push_voted(
    text: &mut Vec<u8>,
    name: &[u8],
    instance: InstanceId,
    ballot: Ballot,
    attrs: &Attrs,
) -> Result<(), AllocError>
    ensures { OnOk result (text.new.items ≡ text.old.items ++ (name.now ++ about_text instance ballot ++ attrs_text attrs.now)) }
{
    push_about(text, name, instance, ballot)?;
    push_attrs(text, attrs)
}

fn push_commit(text: &mut Vec<u8>, instance: InstanceId, decree: &Decree) -> Result<(), AllocError>
    ensures { OnOk result (text.new.items ≡ text.old.items ++ message_text (message.Commit instance decree.now)) }
{
    push_parts(text, &[Part::Text(b"Commit "), Part::Instance(instance)])?;
    push_decree(text, decree)
}

fn push_prepare_ok(
    text: &mut Vec<u8>,
    instance: InstanceId,
    ballot: Ballot,
    vote: &Option<Vote>,
) -> Result<(), AllocError>
    ensures { OnOk result (text.new.items ≡ text.old.items ++ message_text (message.PrepareOk instance ballot vote.now)) }
{
    push_about(text, b"PrepareOK ", instance, ballot)?;
    push_vote(text, vote)
}

fn push_nack(
    text: &mut Vec<u8>,
    instance: InstanceId,
    refused: Ballot,
    promised: Ballot,
) -> Result<(), AllocError>
    ensures { OnOk result (text.new.items ≡ text.old.items ++ message_text (message.Nack instance refused promised)) }
{
    push_about(text, b"Nack ", instance, refused)?;
    text.extend_from_slice(b" promised ")?;
    push_ballot(text, promised)
}

fn push_reported(text: &mut Vec<u8>, reported: &Message) -> Result<(), AllocError>
    ensures { OnOk result (text.new.items ≡ text.old.items ++ message_text reported.now) }
{
    match reported {
        Message::PreAccept {
            instance,
            ballot,
            decree,
        } => push_asked(text, b"PreAccept ", *instance, *ballot, decree),
        Message::PreAcceptOk {
            instance,
            ballot,
            attrs,
        } => push_voted(text, b"PreAcceptOK ", *instance, *ballot, attrs),
        Message::Accept {
            instance,
            ballot,
            decree,
        } => push_asked(text, b"Accept ", *instance, *ballot, decree),
        Message::AcceptOk { instance, ballot } => {
            push_about(text, b"AcceptOK ", *instance, *ballot)
        }
        Message::Commit { instance, decree } => push_commit(text, *instance, decree),
        Message::Prepare { instance, ballot } => {
            push_about(text, b"Prepare ", *instance, *ballot)
        }
        Message::PrepareOk {
            instance,
            ballot,
            vote,
        } => push_prepare_ok(text, *instance, *ballot, vote),
        Message::Nack {
            instance,
            refused,
            promised,
        } => push_nack(text, *instance, *refused, *promised),
    }
}

/// Appends the message of a frame: its kind, the instance, the ballot, and what it bears.
pub fn push_message(text: &mut Vec<u8>, frame: &Frame) -> Result<(), AllocError>
    ensures { OnOk result (text.new.items ≡ text.old.items ++ message_text (message_at frame.now)) }
{
    let reported = frame.view().to_message(*text.allocator())?;
    let pushed = push_reported(text, &reported);
    drop(reported);
    pushed
}

/// Appends which frame it is: its sender, the number of the entry that sends it, and its place among what that entry sends,
/// from 0.
pub fn push_origin(text: &mut Vec<u8>, frame: &Frame) -> Result<(), AllocError>
    ensures { OnOk result (text.new.items ≡ text.old.items ++ origin_text frame.now) }
{
    let origin = frame.origin();
    push_parts(
        text,
        &[
            Part::Number(frame.from().index() as u64),
            Part::Text(b":"),
            Part::Number(origin.entry as u64),
            Part::Text(b":"),
            Part::Number(origin.out as u64),
        ],
    )
}
