//! The parts of a frame's message, read off its bytes as they are asked for.

ghost use Rattle.std.specs.Prelude.{◌≡◌, ◌≤◌, ◌+◌, ◌++◌, ◌&&◌, eqb, Some, IfOk, OnOk, OnErr, length, drop, true};
ghost use Rattle.ep_base.specs.Attributes.{join, same_attrs, same_list};
ghost use Rattle.ep_base.specs.Ops.{op_number};
ghost use Rattle.ep_base.specs.CommandParts.{parts_of, command_of};
ghost use Rattle.ep_base.specs.Sameness.{same_command, same_decree};
ghost use Rattle.ep_rules.specs.Steps.{are_within};
ghost use Rattle.ep_frame.specs.DepBytes.{AreDepBytes};
ghost use Rattle.ep_frame.specs.Faults.{HasNoFault, deps_place, frame_len, has_attributes};
ghost use Rattle.ep_frame.specs.Fields.{deps_in, header_at};
ghost use Rattle.ep_frame.specs.Meaning.{version_at, sender_at, origin_at, kind_at, command_parts_at, run_at, ballot_at, other_at, command_at, attrs_at, decree_at, vote_at, message_at, message_by, carries_attrs, carries_decree, is_within, parts_within};
ghost use Rattle.ep_frame.specs.declared.kind.Kind.TheVariants.{PrepareOk};
ghost use Rattle.ep_frame.specs.Ranges.{InRange, Readable};
ghost use Rattle.ep_frame.specs.Spelling.{Spells, parts_at};

use crate::header::{made_op, second_len_at};
use crate::kind::{Kind, made_kind};
use crate::made::{made_ballot, made_deps, made_seq, made_status};
use crate::numbers::{u8_at, u16_at, u32_at};
use crate::view::{FrameView, dep_bytes_in, instance_in, is_spelled, run_place};
use bytes::Bytes;
use ep_base::{Attrs, Ballot, Command, Decree, InstanceId, Message, Seq, Vote};
use std::alloc::{AllocError, Global};

/// What is known of a frame's bytes: a law, which costs nothing to call.
fn are_known(bytes: &[u8])
    requires { HasNoFault bytes.now }
    ensures long { 40 ≤ length bytes.now }
    ensures whole { length bytes.now ≡ frame_len (header_at bytes.now) }
    ensures readable { Readable (parts_at bytes.now) }
    ensures deps { AreDepBytes (drop (deps_place (header_at bytes.now)) bytes.now) }
{}

fn ballot_in(bytes: &[u8]) -> Ballot
    requires long { 40 ≤ length bytes.now }
    requires readable { Readable (parts_at bytes.now) }
    ensures { result ≡ ballot_at bytes.now }
{
    made_ballot(u16_at(bytes, 23), u8_at(bytes, 25))
}

fn other_in(bytes: &[u8]) -> Ballot
    requires long { 40 ≤ length bytes.now }
    requires readable { Readable (parts_at bytes.now) }
    ensures { result ≡ other_at bytes.now }
{
    made_ballot(u16_at(bytes, 27), u8_at(bytes, 29))
}

fn seq_in(bytes: &[u8]) -> Seq
    requires long { 40 ≤ length bytes.now }
    requires readable { Readable (parts_at bytes.now) }
    requires attributes { has_attributes (header_at bytes.now) ≡ true }
    ensures { result ≡ (attrs_at bytes.now).seq }
{
    made_seq(u32_at(bytes, 30))
}

// The command whose parts stand in this run of the frame's bytes.
fn command_from(bytes: &[u8], run: Bytes) -> Command
    requires whole { length bytes.now ≡ frame_len (header_at bytes.now) }
    requires readable { Readable (parts_at bytes.now) }
    requires run { run ≡ run_at bytes.now }
    ensures { result ≡ command_at bytes.now }
{
    let op = made_op(u8_at(bytes, 34));
    Command::from_valid_parts(op, run, u8_at(bytes, 35), second_len_at(bytes) as u8)
}

// The command, which shares the frame's bytes.
#[inline(always)]
fn command_in(bytes: &Bytes) -> Result<Command, AllocError>
    requires whole { length bytes.now ≡ frame_len (header_at bytes.now) }
    requires readable { Readable (parts_at bytes.now) }
    ensures { IfOk result (λ c. c ≡ command_at bytes.now) }
{
    let all = bytes.as_slice();
    let (start, end) = run_place(all);
    let run = bytes.slice(start..end)?;
    Ok(command_from(all, run))
}

#[inline(always)]
fn attrs_in(alloc: Global, bytes: &[u8]) -> Result<Attrs, AllocError>
    requires long { 40 ≤ length bytes.now }
    requires whole { length bytes.now ≡ frame_len (header_at bytes.now) }
    requires readable { Readable (parts_at bytes.now) }
    requires attributes { has_attributes (header_at bytes.now) ≡ true }
    ensures { IfOk result (λ a. a ≡ attrs_at bytes.now) }
{
    let deps = made_deps(alloc, dep_bytes_in(bytes))?;
    Ok(Attrs {
        seq: seq_in(bytes),
        deps,
    })
}

#[inline(always)]
fn decree_in(alloc: Global, bytes: &Bytes) -> Result<Decree, AllocError>
    requires long { 40 ≤ length bytes.now }
    requires whole { length bytes.now ≡ frame_len (header_at bytes.now) }
    requires readable { Readable (parts_at bytes.now) }
    requires attributes { has_attributes (header_at bytes.now) ≡ true }
    ensures { IfOk result (λ x. x ≡ decree_at bytes.now) }
{
    let command = command_in(bytes)?;
    let attrs = attrs_in(alloc, bytes.as_slice())?;
    Ok(Decree { command, attrs })
}

fn vote_in(alloc: Global, bytes: &Bytes) -> Result<Option<Vote>, AllocError>
    requires long { 40 ≤ length bytes.now }
    requires whole { length bytes.now ≡ frame_len (header_at bytes.now) }
    requires readable { Readable (parts_at bytes.now) }
    requires kind { (header_at bytes.now).kind ≡ 7 }
    ensures { IfOk result (λ v. v ≡ vote_at bytes.now) }
{
    let status = u8_at(bytes.as_slice(), 26);
    if status == 0 {
        return Ok(None);
    }
    let decree = decree_in(alloc, bytes)?;
    Ok(Some(Vote {
        status: made_status(status),
        ballot: other_in(bytes.as_slice()),
        decree,
    }))
}

/// Whether the bytes are those of these dependencies.
fn are_these(bytes: &[u8], deps: &[InstanceId]) -> bool
    ensures { result ≡ same_list (deps_in bytes.now) deps.now }
{
    let mut rest = bytes;
    for dep in deps {
        let [replica, high, low, after @ ..] = rest else {
            return false;
        };
        if u32::from_be_bytes([0, *replica, *high, *low]) != dep.place() {
            return false;
        }
        rest = after;
    }
    rest.len() < 3
}

fn has_attrs_in(bytes: &[u8], attrs: &Attrs) -> bool
    requires long { 40 ≤ length bytes.now }
    requires whole { length bytes.now ≡ frame_len (header_at bytes.now) }
    ensures { result ≡ same_attrs (attrs_at bytes.now) attrs.now }
{
    u32_at(bytes, 30) == attrs.seq.number() && are_these(dep_bytes_in(bytes), attrs.deps.as_slice())
}

// Whether the op, the lengths of both keys, and the run of both keys and the body are the command's.
fn has_parts_in(bytes: &[u8], command: &Command) -> bool
    requires { length bytes.now ≡ frame_len (header_at bytes.now) }
    ensures test { result ≡ (eqb (op_number (command_parts_at bytes.now).op) (op_number (parts_of command.now).op) && (eqb (header_at bytes.now).key_len (length (parts_of command.now).first) && (eqb (header_at bytes.now).second_len (length (parts_of command.now).second) && same_list (run_at bytes.now) ((parts_of command.now).first ++ (parts_of command.now).second ++ (parts_of command.now).body)))) }
    ensures command { command_of (parts_of command.now) ≡ Some command.now }
{
    let (start, end) = run_place(bytes);
    let op = command.op();
    made_op(u8_at(bytes, 34)).number() == op.number()
        && (u8_at(bytes, 35) as usize == command.first().len()
            && (second_len_at(bytes) as usize == command.second().len()
                && &bytes[start..end] == command.as_slice()))
}

fn has_command_in(bytes: &[u8], command: &Command) -> bool
    requires whole { length bytes.now ≡ frame_len (header_at bytes.now) }
    requires readable { Readable (parts_at bytes.now) }
    ensures { result ≡ same_command (command_at bytes.now) command.now }
{
    has_parts_in(bytes, command)
}

// Whether the dependencies are led by replicas below `count`. They rise, so that the last one's leader is the greatest.
#[tactic(auto, using(crate::proofs::Within::last_within))]
fn deps_within(bytes: &[u8], count: u8) -> bool
    requires { AreDepBytes bytes.now }
    ensures { result ≡ are_within count (deps_in bytes.now) }
{
    bytes.is_empty() || u8_at(bytes, bytes.len() - 3) < count
}

// Whether every replica that stands in the bytes is below `count`.
fn names_within(bytes: &[u8], count: u8) -> bool
    requires long { 40 ≤ length bytes.now }
    requires whole { length bytes.now ≡ frame_len (header_at bytes.now) }
    requires deps { AreDepBytes (drop (deps_place (header_at bytes.now)) bytes.now) }
    ensures { result ≡ parts_within count (parts_at bytes.now) }
{
    u8_at(bytes, 4) < count
        && u8_at(bytes, 5) < count
        && u8_at(bytes, 20) < count
        && u8_at(bytes, 25) < count
        && u8_at(bytes, 29) < count
        && deps_within(dep_bytes_in(bytes), count)
}

// Whether every replica that the frame names is below `count`.
fn is_within(bytes: &[u8], count: u8) -> bool
    requires { HasNoFault bytes.now }
    ensures { result ≡ is_within count bytes.now }
{
    are_known(bytes);
    names_within(bytes, count)
}

// The message that the bytes spell.
#[tactic(auto, using(crate::proofs::Reported::by_kind))]
fn message_in(alloc: Global, bytes: &Bytes) -> Result<Message, AllocError>
    requires long { 40 ≤ length bytes.now }
    requires whole { length bytes.now ≡ frame_len (header_at bytes.now) }
    requires ranges { InRange bytes.now }
    requires readable { Readable (parts_at bytes.now) }
    ensures { IfOk result (λ m. m ≡ message_at bytes.now) }
{
    let all = bytes.as_slice();
    let instance = instance_in(all);
    let ballot = ballot_in(all);
    match made_kind(u8_at(all, 3)) {
        Kind::PreAccept => Ok(Message::PreAccept {
            instance,
            ballot,
            decree: decree_in(alloc, bytes)?,
        }),
        Kind::PreAcceptOk => Ok(Message::PreAcceptOk {
            instance,
            ballot,
            attrs: attrs_in(alloc, all)?,
        }),
        Kind::Accept => Ok(Message::Accept {
            instance,
            ballot,
            decree: decree_in(alloc, bytes)?,
        }),
        Kind::AcceptOk => Ok(Message::AcceptOk { instance, ballot }),
        Kind::Commit => Ok(Message::Commit {
            instance,
            decree: decree_in(alloc, bytes)?,
        }),
        Kind::Prepare => Ok(Message::Prepare { instance, ballot }),
        Kind::PrepareOk => Ok(Message::PrepareOk {
            instance,
            ballot,
            vote: vote_in(alloc, bytes)?,
        }),
        Kind::Nack => Ok(Message::Nack {
            instance,
            refused: ballot,
            promised: other_in(all),
        }),
    }
}

impl<'a> FrameView<'a> {
    /// Which message it spells.
    #[tactic(auto, using(crate::proofs::Reported::by_kind, crate::proofs::Frames::frame_long))]
    pub fn kind(&self) -> Kind
        ensures value { result ≡ kind_at self.now }
        ensures message { message_at self.now ≡ message_by result self.now }
    {
        made_kind(u8_at(self.bytes.as_slice(), 3))
    }

    /// The ballot that is led, answered or refused; in a commit the least one.
    pub fn ballot(&self) -> Ballot
        ensures { result ≡ ballot_at self.now }
    {
        are_known(self.bytes.as_slice());
        ballot_in(self.bytes.as_slice())
    }

    /// The ballot that was voted at, or is promised.
    pub fn other(&self) -> Ballot
        ensures { result ≡ other_at self.now }
    {
        are_known(self.bytes.as_slice());
        other_in(self.bytes.as_slice())
    }

    /// Its command, which shares the frame's bytes.
    #[tactic(auto, using(crate::proofs::Reported::decree_there))]
    pub fn to_command(&self) -> Result<Command, AllocError>
        requires { carries_decree (kind_at self.now) ≡ true }
        ensures { IfOk result (λ c. c ≡ command_at self.now) }
    {
        are_known(self.bytes.as_slice());
        command_in(self.bytes)
    }

    /// Its attributes, copied.
    #[tactic(auto, using(crate::proofs::Reported::attrs_there))]
    pub fn to_attrs(&self, alloc: Global) -> Result<Attrs, AllocError>
        requires { carries_attrs (kind_at self.now) ≡ true }
        ensures { IfOk result (λ a. a ≡ attrs_at self.now) }
    {
        are_known(self.bytes.as_slice());
        attrs_in(alloc, self.bytes.as_slice())
    }

    /// Its command, which shares the frame's bytes, and its attributes, copied.
    #[tactic(auto, using(crate::proofs::Reported::decree_there, crate::proofs::Reported::decree_attrs_there))]
    pub fn to_decree(&self, alloc: Global) -> Result<Decree, AllocError>
        requires { carries_decree (kind_at self.now) ≡ true }
        ensures { IfOk result (λ x. x ≡ decree_at self.now) }
    {
        are_known(self.bytes.as_slice());
        decree_in(alloc, self.bytes)
    }

    /// The vote that it answers: its command shares the frame's bytes, the rest is copied.
    #[tactic(auto, using(crate::proofs::Reported::vote_there))]
    pub fn to_vote(&self, alloc: Global) -> Result<Option<Vote>, AllocError>
        requires { kind_at self.now ≡ PrepareOk }
        ensures { IfOk result (λ v. v ≡ vote_at self.now) }
    {
        are_known(self.bytes.as_slice());
        vote_in(alloc, self.bytes)
    }

    /// Whether these are its attributes.
    pub fn has_attrs(&self, attrs: &Attrs) -> bool
        ensures { result ≡ same_attrs (attrs_at self.now) attrs.now }
    {
        are_known(self.bytes.as_slice());
        has_attrs_in(self.bytes.as_slice(), attrs)
    }

    /// Whether this is its decree.
    #[tactic(auto, using(crate::proofs::Reported::decree_there))]
    pub fn has_decree(&self, decree: &Decree) -> bool
        requires { carries_decree (kind_at self.now) ≡ true }
        ensures { result ≡ same_decree (decree_at self.now) decree.now }
    {
        are_known(self.bytes.as_slice());
        has_command_in(self.bytes.as_slice(), &decree.command)
            && has_attrs_in(self.bytes.as_slice(), &decree.attrs)
    }

    /// Joins its attributes to these. It takes no memory where they are the same.
    #[tactic(auto, using(crate::proofs::Reported::attrs_there))]
    pub fn join_to(&self, alloc: Global, attrs: &mut Attrs) -> Result<(), AllocError>
        requires { carries_attrs (kind_at self.now) ≡ true }
        ensures ok { OnOk result (attrs.new ≡ join (attrs_at self.now) attrs.old) }
        ensures err { OnErr result (attrs.new ≡ attrs.old) }
    {
        are_known(self.bytes.as_slice());
        if has_attrs_in(self.bytes.as_slice(), attrs) {
            return Ok(());
        }
        let mut joined = attrs_in(alloc, self.bytes.as_slice())?;
        joined.merge(alloc, attrs)?;
        *attrs = joined;
        Ok(())
    }

    /// Whether the sender, the receiver and every replica that the message names is below `count`.
    pub fn is_within(&self, count: u8) -> bool
        ensures { result ≡ is_within count self.now }
    {
        is_within(self.bytes.as_slice(), count)
    }

    /// The message that the bytes spell.
    #[tactic(auto, using(crate::proofs::Frames::frame_ranges))]
    pub fn to_message(&self, alloc: Global) -> Result<Message, AllocError>
        ensures value { IfOk result (λ m. m ≡ message_at self.now) }
        ensures spelled { IfOk result (λ m. Spells (version_at self.now) self.now (sender_at self.now) (origin_at self.now) m) }
    {
        are_known(self.bytes.as_slice());
        is_spelled(self.bytes.as_slice());
        message_in(alloc, self.bytes)
    }
}
