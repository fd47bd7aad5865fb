//! Writing a message as a frame.

ghost use Rattle.std.specs.Prelude.{◌≡◌, ◌≢◌, ◌≤◌, ◌<◌, ◌^◌, ◌++◌, ◌∷◌, [], length, OnOk, IfOk};
ghost use Rattle.std.specs.List.{flat_map, concat, AllByRecursion};
ghost use Rattle.ep_frame.specs.Fields.{spelled, start_fields, origin_fields, ballot_fields, vote_fields, text_len, body_fields, late_fields, header_bytes, dep_bytes};
ghost use Rattle.ep_frame.specs.Spelling.{IsFrame, Spells, parts_bytes};
ghost use Rattle.ep_base.specs.Fitting.{BallotsFit};
ghost use Rattle.ep_base.specs.Versions.{CanSay};
ghost use Rattle.ep_frame.specs.Layouts.{parts_in, as_message};
ghost use Rattle.ep_frame.specs.Origins.{readdressed, OriginFits};
ghost use Rattle.ep_frame.specs.Rounds.{AreFramesTo, OriginsFit, readdressed_to};

use crate::frame::Frame;
use crate::frame_mut::origin_array;
use crate::header::Header;
use crate::instance_message::InstanceMessage;
use crate::layout::Layout;
use crate::origin::Origin;
use crate::round::Round;
use bytes::Bytes;
use ep_base::{InstanceId, Message, ReplicaId, Version};
use std::alloc::{AllocError, Global};

#[tactic(auto, unfolding(crate::specs::Fields::number_bytes))]
fn start_array(header: Header) -> [u8; 5]
    ensures { result ≡ spelled (start_fields header) }
{
    let magic = header.magic.to_be_bytes();
    [magic[0], magic[1], header.version, header.kind, header.from]
}

#[tactic(auto, unfolding(crate::specs::Fields::number_bytes))]
fn destination_array(header: Header) -> [u8; 15]
    ensures { result ≡ spelled (origin_fields header) }
{
    let out = header.out.to_be_bytes();
    let entry = header.entry.to_be_bytes();
    let stamp = header.stamp.to_be_bytes();
    [
        header.to, out[0], out[1], entry[0], entry[1], entry[2], entry[3], stamp[0], stamp[1],
        stamp[2], stamp[3], stamp[4], stamp[5], stamp[6], stamp[7],
    ]
}

#[tactic(auto, unfolding(crate::specs::Fields::number_bytes))]
fn ballot_array(header: Header) -> [u8; 6]
    ensures { result ≡ spelled (ballot_fields header) }
{
    let number = header.number.to_be_bytes();
    let counter = header.counter.to_be_bytes();
    [
        header.leader,
        number[0],
        number[1],
        counter[0],
        counter[1],
        header.replica,
    ]
}

#[tactic(auto, unfolding(crate::specs::Fields::number_bytes))]
fn vote_array(header: Header) -> [u8; 4]
    ensures { result ≡ spelled (vote_fields header) }
{
    let counter = header.other_counter.to_be_bytes();
    [header.status, counter[0], counter[1], header.other_replica]
}

// The field at 36.
fn text_len(header: Header) -> u16
    requires { text_len header < 2 ^ 16 }
    ensures { result ≡ text_len header }
{
    if header.version != 3 && header.op == 3 {
        header.body_len as u16
    } else {
        header.second_len
    }
}

#[tactic(auto, unfolding(crate::specs::Fields::number_bytes))]
fn body_array(header: Header) -> [u8; 10]
    requires { text_len header < 2 ^ 16 }
    ensures { result ≡ spelled (body_fields header) }
{
    let seq = header.seq.to_be_bytes();
    let text_len = text_len(header).to_be_bytes();
    let count = header.count.to_be_bytes();
    [
        seq[0],
        seq[1],
        seq[2],
        seq[3],
        header.op,
        header.key_len,
        text_len[0],
        text_len[1],
        count[0],
        count[1],
    ]
}

#[tactic(auto, unfolding(crate::specs::Fields::number_bytes))]
fn late_array(header: Header) -> [u8; 8]
    ensures { result ≡ spelled ((4, header.generation) ∷ (4, header.body_len) ∷ []) }
{
    let generation = header.generation.to_be_bytes();
    let body_len = header.body_len.to_be_bytes();
    [
        generation[0],
        generation[1],
        generation[2],
        generation[3],
        body_len[0],
        body_len[1],
        body_len[2],
        body_len[3],
    ]
}

fn put_late(out: &mut Vec<u8>, header: Header) -> Result<(), AllocError>
    ensures { OnOk result (out.new.items ≡ out.old.items ++ spelled (late_fields header)) }
{
    if header.version == 3 {
        return out.extend_from_slice(&late_array(header));
    }
    Ok(())
}

fn put_header(out: &mut Vec<u8>, header: Header) -> Result<(), AllocError>
    requires { text_len header < 2 ^ 16 }
    ensures { OnOk result (out.new.items ≡ out.old.items ++ header_bytes header) }
{
    out.extend_from_slice(&start_array(header))?;
    out.extend_from_slice(&destination_array(header))?;
    out.extend_from_slice(&ballot_array(header))?;
    out.extend_from_slice(&vote_array(header))?;
    out.extend_from_slice(&body_array(header))?;
    put_late(out, header)
}

fn put_each(out: &mut Vec<u8>, deps: &[InstanceId]) -> Result<(), AllocError>
    ensures { OnOk result (out.new.items ≡ out.old.items ++ flat_map dep_bytes deps.now) }
{
    for dep in deps {
        out.extend_from_slice(&dep_array(*dep))?;
    }
    Ok(())
}

#[tactic(auto, unfolding(crate::specs::Fields::number_bytes))]
fn dep_array(dep: InstanceId) -> [u8; 3]
    ensures { result ≡ dep_bytes dep }
{
    let [high, low] = dep.number().to_be_bytes();
    [dep.replica().index(), high, low]
}

// Four at once, so that room is looked for once.
fn put_four(
    out: &mut Vec<u8>,
    a: InstanceId,
    b: InstanceId,
    c: InstanceId,
    d: InstanceId,
) -> Result<(), AllocError>
    ensures { OnOk result (out.new.items ≡ out.old.items ++ (dep_bytes a ++ dep_bytes b ++ dep_bytes c ++ dep_bytes d)) }
{
    let four = [dep_array(a), dep_array(b), dep_array(c), dep_array(d)];
    out.extend_from_slice(four.as_flattened())
}

fn put_deps(out: &mut Vec<u8>, deps: &[InstanceId]) -> Result<(), AllocError>
    ensures { OnOk result (out.new.items ≡ out.old.items ++ flat_map dep_bytes deps.now) }
{
    let mut rest = deps;
    while let [a, b, c, d, after @ ..] = rest {
        put_four(out, *a, *b, *c, *d)?;
        rest = after;
    }
    put_each(out, rest)
}

fn put_parts(out: &mut Vec<u8>, parts: &Layout<'_>) -> Result<(), AllocError>
    requires { text_len parts.now.header < 2 ^ 16 }
    ensures { OnOk result (out.new.items ≡ out.old.items ++ parts_bytes (parts_in parts.now)) }
{
    put_header(out, parts.header)?;
    out.extend_from_slice(parts.run)?;
    put_deps(out, parts.deps)?;
    Ok(())
}

/// The frame of the message in this version, from this sender and with this origin.
///
/// The caller sees to what the types leave open: the receiver is another replica than the sender, entries are numbered
/// from 1, a ballot of counter 0 is the instance's leader's, no such ballot is prepared or promised, and the version can
/// say the message.
pub fn write(
    alloc: Global,
    version: Version,
    from: ReplicaId,
    message: &Message,
    origin: Origin,
) -> Result<Frame, AllocError>
    requires apart { origin.to ≢ from }
    requires entry { 1 ≤ origin.entry }
    requires ballots { BallotsFit message.now }
    requires sayable { CanSay version message.now }
    ensures { IfOk result (λ f. Spells version f from origin message.now) }
{
    let instance_message = InstanceMessage {
        instance: message.instance(),
        said: message.said(),
    };
    write_said(alloc, version, from, &instance_message, origin)
}

/// The frame of the message, as `write` writes it.
pub fn write_said(
    alloc: Global,
    version: Version,
    from: ReplicaId,
    message: &InstanceMessage<'_>,
    origin: Origin,
) -> Result<Frame, AllocError>
    requires apart { origin.to ≢ from }
    requires entry { 1 ≤ origin.entry }
    requires ballots { BallotsFit (as_message message.now) }
    requires sayable { CanSay version (as_message message.now) }
    ensures { IfOk result (λ f. Spells version f from origin (as_message message.now)) }
{
    let bytes = written(alloc, version, from, message, origin)?;
    Ok(Frame::written(Bytes::from_vec(bytes)?))
}

/// The frames of the message to each of these receivers, in order, each as `write` writes it. They share one run of bytes.
///
/// The caller sees to what the types leave open, as for `write`. There are one to seven receivers.
pub fn write_each(
    alloc: Global,
    version: Version,
    from: ReplicaId,
    message: &InstanceMessage<'_>,
    round: &Round<'_>,
) -> Result<Vec<Frame>, AllocError>
    requires apart { AllByRecursion (λ to. to ≢ from) round.now.receivers.now }
    requires some { 1 ≤ length round.now.receivers.now }
    requires few { length round.now.receivers.now ≤ 7 }
    requires entry { 1 ≤ round.now.entry }
    requires ballots { BallotsFit (as_message message.now) }
    requires sayable { CanSay version (as_message message.now) }
    ensures { IfOk result (λ f. AreFramesTo version from (as_message message.now) round.now.entry round.now.stamp 0 round.now.receivers.now f.items) }
{
    let first = written(alloc, version, from, message, round.origin(0))?;
    let all = repeated(alloc, &first, round)?;
    cut(alloc, Bytes::from_vec(all)?, &first, round)
}

/// The bytes of the frame of the message.
fn written(
    alloc: Global,
    version: Version,
    from: ReplicaId,
    message: &InstanceMessage<'_>,
    origin: Origin,
) -> Result<Vec<u8>, AllocError>
    requires apart { origin.to ≢ from }
    requires entry { 1 ≤ origin.entry }
    requires ballots { BallotsFit (as_message message.now) }
    requires sayable { CanSay version (as_message message.now) }
    ensures { IfOk result (λ b. Spells version b.items from origin (as_message message.now)) }
{
    let _kind = version.kind();
    let parts = Layout::of(version, from, origin, message);
    let mut out = Vec::with_capacity(alloc, parts.header.len())?;
    put_parts(&mut out, &parts)?;
    Ok(out)
}

/// The frame's bytes once for each of the receivers, one after the other, each with its origin.
fn repeated(alloc: Global, frame: &[u8], round: &Round<'_>) -> Result<Vec<u8>, AllocError>
    requires long { 20 ≤ length frame.now }
    requires few { length round.now.receivers.now ≤ 7 }
    requires entry { 1 ≤ round.now.entry }
    ensures bytes { IfOk result (λ b. b.items ≡ concat (readdressed_to frame.now round.now.entry round.now.stamp 0 round.now.receivers.now)) }
    ensures in_range { IfOk result (λ _. OriginsFit round.now.entry round.now.stamp 0 round.now.receivers.now) }
{
    let count = round.receivers.len();
    let mut all = Vec::with_capacity(alloc, frame.len().saturating_mul(count))?;
    for place in 0..count {
        put_readdressed(&mut all, frame, round.origin(place))?;
    }
    Ok(all)
}

/// Adds the frame's bytes with this origin in place of its own.
fn put_readdressed(out: &mut Vec<u8>, frame: &[u8], origin: Origin) -> Result<(), AllocError>
    requires long { 20 ≤ length frame.now }
    requires entry { 1 ≤ origin.entry }
    ensures ok { OnOk result (out.new.items ≡ out.old.items ++ readdressed frame.now origin) }
    ensures in_range { OriginFits origin }
{
    out.extend_from_slice(&frame[..5])?;
    out.extend_from_slice(&origin_array(origin))?;
    out.extend_from_slice(&frame[20..])
}

/// The frames that stand in these bytes one after the other, each as long as this one.
fn cut(alloc: Global, all: Bytes, frame: &[u8], round: &Round<'_>) -> Result<Vec<Frame>, AllocError>
    requires long { 20 ≤ length frame.now }
    requires whole { all ≡ concat (readdressed_to frame.now round.now.entry round.now.stamp 0 round.now.receivers.now) }
    requires frames { AllByRecursion (λ b. IsFrame b) (readdressed_to frame.now round.now.entry round.now.stamp 0 round.now.receivers.now) }
    ensures { IfOk result (λ f. f.items ≡ readdressed_to frame.now round.now.entry round.now.stamp 0 round.now.receivers.now) }
{
    let count = round.receivers.len();
    let mut frames = Vec::with_capacity(alloc, count)?;
    let mut rest = all;
    for place in 0..count {
        let bytes = rest.split_to(frame.len())?;
        frames.push_reserved(Frame::written(bytes));
    }
    Ok(frames)
}
