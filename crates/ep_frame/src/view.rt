//! Reading a frame.

ghost use Rattle.std.specs.Prelude.{◌≡◌, ◌≢◌, ◌≤◌, ◌<◌, ◌^◌, ◌+◌, ◌*◌, ◌↔◌, Ok, Err, IfOk, IsOk, IfSome, IsSome, IsTrue, MatchResult, length, drop};
ghost use Rattle.ep_base.specs.Instances.{instance_of, highest_number};
ghost use Rattle.ep_base.specs.CommandParts.{body_said};
ghost use Rattle.ep_base.specs.Messages.{instance_of_message};
ghost use Rattle.ep_frame.specs.Faults.{HasNoFault, are_deps, are_early, are_in, deps_allowed, has_same_keys, has_other_body, is_short, fault_of, is_instance, rest_fault, second_place, body_place, deps_place, frame_len};
ghost use Rattle.ep_frame.specs.DepBytes.{deps_at};
ghost use Rattle.ep_frame.specs.Fields.{deps_in, header_at, header_len, number_at};
ghost use Rattle.ep_frame.specs.Spelling.{IsFrame, Spells, key_at, second_key_at, body_at, parts_at};
ghost use Rattle.ep_frame.specs.Ranges.{InRange};
ghost use Rattle.ep_frame.specs.Meaning.{version_at, sender_at, origin_at, instance_at, message_at};

use crate::deps_view::DepsView;
use crate::fault::FrameFault;
use crate::header::{Header, body_len_at, generation_at, header_len, made_op, second_len_at};
use crate::numbers::{u8_at, u16_at, u32_at, u64_at};
use crate::origin::Origin;
use bytes::Bytes;
use ep_base::{InstanceId, Op, ReplicaId, Stamp, Version, VersionKind, is_comparison, is_tx};
use std::marker::Model;

/// The bytes of a frame, borrowed. A frame spells one message, in one version, from one sender and with one origin.
#[derive(Drop)]
pub struct FrameView<'a> {
    pub(crate) bytes: &'a Bytes,
}

impl<'a> Model for FrameView<'a> {
    ghost use Rattle.std.specs.Prelude.{◌≡◌, List, ℕ, Ok};
    ghost use Rattle.ep_frame.specs.Faults.{HasNoFault};

    ghost Value = { List ℕ };

    ghost view = { λ v. v.bytes.now };

    ghost invariant = { λ v. HasNoFault v.bytes.now };
}

/// The instance that these fields name.
#[tactic(auto, using(crate::proofs::Packing::leader_again, crate::proofs::Packing::number_again))]
pub(crate) fn dep_of(replica: u8, number: u16) -> Option<InstanceId>
    ensures found { IfSome result (λ i. i ≡ instance_of replica number) }
    ensures only { IsTrue (is_instance (instance_of replica number)) ↔ IsSome result }
{
    let replica = ReplicaId::new(replica).ok()?;
    InstanceId::new(replica, number).ok()
}

/// Whether they are dependencies in rising order.
fn deps_rise(bytes: &[u8]) -> bool
    ensures { result ≡ are_deps (deps_in bytes.now) }
{
    let mut rest = bytes;
    let mut last = None;
    while let [replica, high, low, after @ ..] = rest {
        let number = u16::from_be_bytes([*high, *low]);
        let Some(dep) = dep_of(*replica, number) else {
            return false;
        };
        if let Some(before) = last
            && before >= dep
        {
            return false;
        }
        last = Some(dep);
        rest = after;
    }
    true
}

// Whether all of these dependencies are numbered up to this.
fn are_early(bytes: &[u8], most: u16) -> bool
    ensures { result ≡ are_early most (deps_in bytes.now) }
{
    let mut rest = bytes;
    while let [_, high, low, after @ ..] = rest {
        if u16::from_be_bytes([*high, *low]) > most {
            return false;
        }
        rest = after;
    }
    true
}

// Whether the version has these dependencies, all of which are instances.
fn are_in(version: Version, bytes: &[u8]) -> bool
    ensures { result ≡ are_in version (deps_in bytes.now) }
{
    match version.kind() {
        VersionKind::V1 | VersionKind::V2 => are_early(bytes, version.highest_number()),
        VersionKind::V3(_) => true,
    }
}

// Whether they are dependencies of the version, in rising order.
fn deps_allowed(version: Version, bytes: &[u8]) -> bool
    ensures { result ≡ deps_allowed version (deps_in bytes.now) }
{
    deps_rise(bytes) && are_in(version, bytes)
}

// Whether there are two keys, and they are the same.
#[tactic(auto, using(crate::proofs::Deps::part_of))]
fn has_same_keys(header: &Header, bytes: &[u8]) -> bool
    requires { length bytes.now ≡ frame_len header.now }
    ensures { result ≡ has_same_keys header.now bytes.now }
{
    let key = &bytes[header_len(header.version)..header.second_place()];
    let second = &bytes[header.second_place()..header.body_place()];
    !second.is_empty() && second == key
}

// Whether the body doesn't fit the op: the command is a comparison or one over many keys, and this is no such body.
#[tactic(auto, using(crate::proofs::Deps::part_of))]
fn has_other_body(header: &Header, bytes: &[u8]) -> bool
    requires { length bytes.now ≡ frame_len header.now }
    ensures { result ≡ has_other_body header.now bytes.now }
{
    let body = &bytes[header.body_place()..header.deps_place()];
    !is_said(made_op(header.op), body)
}

// Whether a command of this op may have this body.
fn is_said(op: Op, body: &[u8]) -> bool
    ensures { result ≡ body_said op body.now }
{
    match op {
        Op::Cas => is_comparison(body),
        Op::Tx => is_tx(body),
        Op::Noop | Op::Get | Op::Put | Op::Del | Op::Swap | Op::Ask | Op::Act | Op::Seal => true,
    }
}

/// Whether the length is that of the fields, the dependencies are in order, two keys differ, and the body
/// fits the op.
#[tactic(auto, using(std::proofs::lemmas::List::take_rest, crate::proofs::Limits::same_deps), unfolding(crate::specs::Faults::rest_fault))]
fn check_rest(header: &Header, bytes: &[u8]) -> Result<(), FrameFault>
    ensures { result ≡ rest_fault header.now bytes.now }
{
    if bytes.len() != header.len() {
        return Err(FrameFault::Length);
    }
    if !deps_allowed(header.limits(), &bytes[header.deps_place()..]) {
        return Err(FrameFault::Order);
    }
    if has_same_keys(header, bytes) {
        return Err(FrameFault::SameKey);
    }
    if has_other_body(header, bytes) {
        return Err(FrameFault::Body);
    }
    Ok(())
}

// Whether they are fewer bytes than a header of its version has.
#[tactic(auto, using(crate::proofs::Limits::is_short_below))]
fn is_short(bytes: &[u8]) -> bool
    ensures { result ≡ is_short bytes.now }
{
    if bytes.len() < 40 {
        return true;
    }
    bytes.len() < header_len(u8_at(bytes, 2))
}

/// The first fault of the bytes.
#[tactic(auto, unfolding(crate::specs::Faults::fault_of))]
pub(crate) fn check_frame(bytes: &[u8]) -> Result<(), FrameFault>
    ensures { result ≡ fault_of bytes.now }
{
    if is_short(bytes) {
        return Err(FrameFault::Short);
    }
    let header = Header::parse(bytes);
    header.check()?;
    check_rest(&header, bytes)
}

// Where the second key begins, the body, and the dependencies.

fn second_place_in(bytes: &[u8]) -> usize
    requires { length bytes.now ≡ frame_len (header_at bytes.now) }
    ensures value { result ≡ second_place (header_at bytes.now) }
    ensures small { result < 2 ^ 9 }
{
    header_len(u8_at(bytes, 2)) + u8_at(bytes, 35) as usize
}

fn body_place_in(bytes: &[u8]) -> usize
    requires { length bytes.now ≡ frame_len (header_at bytes.now) }
    ensures value { result ≡ body_place (header_at bytes.now) }
    ensures small { result < 2 ^ 17 }
{
    second_place_in(bytes) + second_len_at(bytes) as usize
}

fn deps_place_in(bytes: &[u8]) -> usize
    requires { length bytes.now ≡ frame_len (header_at bytes.now) }
    ensures value { result ≡ deps_place (header_at bytes.now) }
    ensures small { result < 2 ^ 33 }
{
    body_place_in(bytes) + body_len_at(bytes) as usize
}

pub(crate) fn key_in(bytes: &[u8]) -> &[u8]
    requires { length bytes.now ≡ frame_len (header_at bytes.now) }
    ensures { result.now ≡ key_at bytes.now }
{
    let start = header_len(u8_at(bytes, 2));
    &bytes[start..second_place_in(bytes)]
}

pub(crate) fn second_key_in(bytes: &[u8]) -> &[u8]
    requires { length bytes.now ≡ frame_len (header_at bytes.now) }
    ensures { result.now ≡ second_key_at bytes.now }
{
    &bytes[second_place_in(bytes)..body_place_in(bytes)]
}

pub(crate) fn body_in(bytes: &[u8]) -> &[u8]
    requires { length bytes.now ≡ frame_len (header_at bytes.now) }
    ensures { result.now ≡ body_at bytes.now }
{
    &bytes[body_place_in(bytes)..deps_place_in(bytes)]
}

/// The replica of this number.
pub(crate) fn made_replica(index: u8) -> ReplicaId
    requires { index ≤ 6 }
    ensures { result ≡ index }
{
    match ReplicaId::new(index) {
        Ok(replica) => replica,
        Err(_) => unreachable!(),
    }
}

/// The instance of this leader and number.
pub(crate) fn made_instance(leader: u8, number: u16) -> InstanceId
    requires leader { leader ≤ 6 }
    requires low { 1 ≤ number }
    requires high { number ≤ highest_number }
    ensures { result ≡ instance_of leader number }
{
    match InstanceId::new(made_replica(leader), number) {
        Ok(instance) => instance,
        Err(_) => unreachable!(),
    }
}

fn replica_at(bytes: &[u8], place: usize) -> ReplicaId
    requires long { place + 1 ≤ length bytes.now }
    requires in_range { number_at place 1 bytes.now ≤ 6 }
    ensures { result ≡ number_at place 1 bytes.now }
{
    made_replica(u8_at(bytes, place))
}

fn stamp_at(bytes: &[u8], place: usize) -> Stamp
    requires long { place + 8 ≤ length bytes.now }
    requires low { 1 ≤ number_at place 8 bytes.now }
    requires high { number_at place 8 bytes.now ≤ 281474976710655 }
    ensures { result ≡ number_at place 8 bytes.now }
{
    match Stamp::new(u64_at(bytes, place)) {
        Ok(stamp) => stamp,
        Err(_) => unreachable!(),
    }
}

pub(crate) fn instance_in(bytes: &[u8]) -> InstanceId
    requires { InRange bytes.now }
    ensures { result ≡ instance_at bytes.now }
{
    made_instance(u8_at(bytes, 20), u16_at(bytes, 21))
}

#[tactic(auto, using(crate::proofs::Frames::frame_long, crate::proofs::Frames::frame_header, crate::proofs::Frames::frame_generation))]
fn version_in(bytes: &[u8]) -> Version
    requires { HasNoFault bytes.now }
    ensures { result ≡ version_at bytes.now }
{
    Version::from_valid(u8_at(bytes, 2), generation_at(bytes))
}

fn sender_in(bytes: &[u8]) -> ReplicaId
    requires { InRange bytes.now }
    ensures { result ≡ sender_at bytes.now }
{
    replica_at(bytes, 4)
}

fn origin_in(bytes: &[u8]) -> Origin
    requires { InRange bytes.now }
    ensures { result ≡ origin_at bytes.now }
{
    Origin {
        to: replica_at(bytes, 5),
        out: u16_at(bytes, 6),
        entry: u32_at(bytes, 8),
        stamp: stamp_at(bytes, 12),
    }
}

// What stands after the body.
#[tactic(auto, using(std::proofs::lemmas::List::take_rest))]
pub(crate) fn dep_bytes_in(bytes: &[u8]) -> &[u8]
    requires { length bytes.now ≡ frame_len (header_at bytes.now) }
    ensures { result.now ≡ drop (deps_place (header_at bytes.now)) bytes.now }
{
    let place = deps_place_in(bytes);
    &bytes[place..]
}

// Both keys and the body, one after the other.
pub(crate) fn run_place(bytes: &[u8]) -> (usize, usize)
    requires { length bytes.now ≡ frame_len (header_at bytes.now) }
    ensures start { result.0 ≡ header_len (header_at bytes.now).version }
    ensures end { result.1 ≡ deps_place (header_at bytes.now) }
{
    (header_len(u8_at(bytes, 2)), deps_place_in(bytes))
}

/// What bytes without a fault spell: a law, which costs nothing to call.
pub(crate) fn is_spelled(bytes: &[u8])
    requires { HasNoFault bytes.now }
    ensures spelled { Spells (version_at bytes.now) bytes.now (sender_at bytes.now) (origin_at bytes.now) (message_at bytes.now) }
    ensures frame { IsFrame bytes.now }
{}

/// Bytes alone aren't of another generation: a law, which costs nothing to call.
fn are_of_their_generation(bytes: &[u8])
    ensures { fault_of bytes.now ≢ Err FrameFault.Generation }
{}

impl<'a> FrameView<'a> {
    /// The frame that the bytes are; otherwise the first fault from left to right.
    pub fn read(bytes: &'a Bytes) -> Result<FrameView<'a>, FrameFault>
        ensures exact { MatchResult result (λ v. fault_of bytes.now ≡ Ok tt) (λ f. fault_of bytes.now ≡ Err f) }
        // What is read spells the message that its fields say.
        ensures found { IfOk result (λ _. Spells (version_at bytes.now) bytes.now (sender_at bytes.now) (origin_at bytes.now) (message_at bytes.now)) }
        // What spells a message is read.
        ensures only { IsFrame bytes.now → IsOk result }
        ensures view { IfOk result (λ v. v ≡ bytes.now) }
        // It is never of another generation: that is for its reader to see.
        ensures generation { result ≢ Err FrameFault.Generation }
    {
        are_of_their_generation(bytes.as_slice());
        check_frame(bytes.as_slice())?;
        is_spelled(bytes.as_slice());
        Ok(FrameView { bytes })
    }

    /// The frame that the bytes are known to be.
    pub(crate) fn from_valid(bytes: &'a Bytes) -> FrameView<'a>
        requires { HasNoFault bytes.now }
        ensures value { result ≡ bytes.now }
        ensures spelled { Spells (version_at bytes.now) bytes.now (sender_at bytes.now) (origin_at bytes.now) (message_at bytes.now) }
        ensures frame { IsFrame bytes.now }
    {
        is_spelled(bytes.as_slice());
        FrameView { bytes }
    }

    /// The version that the frame is of.
    pub fn version(&self) -> Version
        ensures { result ≡ version_at self.now }
    {
        version_in(self.bytes.as_slice())
    }

    /// The fields of the header.
    #[tactic(auto, using(crate::proofs::Frames::frame_header))]
    pub fn header(&self) -> Header
        ensures { result ≡ header_at self.now }
    {
        Header::parse(self.bytes.as_slice())
    }

    #[tactic(auto, using(crate::proofs::Frames::frame_ranges))]
    /// The replica that sent the frame.
    pub fn from(&self) -> ReplicaId
        ensures { result ≡ sender_at self.now }
    {
        sender_in(self.bytes.as_slice())
    }

    #[tactic(auto, using(crate::proofs::Frames::frame_ranges))]
    /// Where the frame goes, and which one it is.
    pub fn origin(&self) -> Origin
        ensures { result ≡ origin_at self.now }
    {
        origin_in(self.bytes.as_slice())
    }

    #[tactic(auto, using(crate::proofs::Frames::frame_ranges, crate::proofs::Meanings::instance_named))]
    /// The instance that the message is about.
    pub fn instance(&self) -> InstanceId
        ensures value { result ≡ instance_at self.now }
        ensures message { result ≡ instance_of_message (message_at self.now) }
    {
        instance_in(self.bytes.as_slice())
    }

    /// The bytes of the key, of two the first one: those behind the header that it counts. None where the frame has no key.
    #[tactic(auto, using(crate::proofs::Frames::frame_whole))]
    pub fn key(&self) -> &'a [u8]
        ensures { result.now ≡ key_at self.now }
    {
        key_in(self.bytes.as_slice())
    }

    /// The bytes of the second key, which stand behind the first one. None where the frame has no second key.
    #[tactic(auto, using(crate::proofs::Frames::frame_whole))]
    pub fn second_key(&self) -> &'a [u8]
        ensures { result.now ≡ second_key_at self.now }
    {
        second_key_in(self.bytes.as_slice())
    }

    /// The bytes of the value: those behind the keys that the header counts. Of a put they are what it writes, of other
    /// commands the rest of what these say (a comparison's two values, the items of one over many keys). Empty where
    /// the command says no more than its keys.
    #[tactic(auto, using(crate::proofs::Frames::frame_whole))]
    pub fn value(&self) -> &'a [u8]
        ensures { result.now ≡ body_at self.now }
    {
        body_in(self.bytes.as_slice())
    }

    #[tactic(auto, using(crate::proofs::Frames::frame_whole, crate::proofs::Frames::frame_deps))]
    /// The dependencies: what stands after the body.
    pub fn deps(&self) -> DepsView<'a>
        ensures { result ≡ deps_at self.now }
    {
        DepsView::of(dep_bytes_in(self.bytes.as_slice()))
    }
}
