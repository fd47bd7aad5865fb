//! Writing answers.

ghost use Rattle.std.specs.Prelude.{◌≡◌, ◌<◌, ◌+◌, ◌≤◌, ◌^◌, ◌++◌, ℕ, List, Some, None, length};
ghost use Rattle.std.specs.List.{flat_map};
ghost use Rattle.ep_base.specs.Devices.{Puts};
ghost use Rattle.ep_bundle.specs.Bytes.{receipt_bytes};
ghost use Rattle.ep_frame.specs.Fields.{number_bytes};
ghost use Rattle.ep_bundle.specs.Writing.{All, FrameFits, FramesFit};
ghost use Rattle.ep_wire.specs.Answers.{answer_count, counts_bytes, entry_bytes, first_about, frames_bytes, handled_bytes, head_bytes, instance_bytes, field_code, instance_or_none, leading_bytes, malformed_bytes, phase_code, receipts_bytes, refused_bytes, sealed_code, sent_bytes, space_bytes, state_bytes, synced_bytes, taken_as, taken_bytes, value_bytes, Fits};

use crate::lead_progress::LeadProgress;
use crate::malformed::Malformed;
use crate::node_state::NodeState;
use crate::request_field::RequestField;
use ep_base::{InstanceId, Sink, Value, Version, WriteFailed};
use ep_bundle::{
    put_frame, put_instance, put_receipt, put_run, put_u8, put_u16, put_u32, put_u64, put_value,
};
use ep_frame::Frame;
use ep_journal::{Entry, Event, Refusal};
use ep_rules::Receipt;

/// An instance, or three zero bytes.
fn put_instance_or_none<K: Sink>(
    sink: &mut K,
    instance: Option<InstanceId>,
) -> Result<(), WriteFailed>
    ensures { Puts (K.held sink.old) (K.held sink.new) (K.has_failed sink.old) (K.has_failed sink.new) result (instance_or_none instance) }
{
    match instance {
        Some(instance) => put_instance(sink, instance),
        None => put_run(sink, &[0, 0, 0]),
    }
}

/// The instance that the first of these frames is about.
fn first_about(frames: &[Frame]) -> Option<InstanceId>
    ensures { result ≡ first_about frames.now }
{
    match frames.first() {
        Some(frame) => Some(frame.instance()),
        None => None,
    }
}

/// The instance that the entry's proposal took; none where its event is another.
pub fn taken_as(entry: &Entry) -> Option<InstanceId>
    ensures { result ≡ taken_as entry.now.event entry.now.frames }
{
    match &entry.event {
        Event::Propose { .. } => first_about(entry.frames.as_slice()),
        Event::Handle(_) | Event::GiveUp(_) | Event::Recover(_) | Event::Execute(_) => None,
    }
}

/// Writes a frame, with its receiver before it.
pub fn put_sent<K: Sink>(sink: &mut K, frame: &Frame) -> Result<(), WriteFailed>
    requires { FrameFits frame.now }
    ensures { Puts (K.held sink.old) (K.held sink.new) (K.has_failed sink.old) (K.has_failed sink.new) result (sent_bytes frame.now) }
{
    put_u8(sink, frame.origin().to.index())?;
    put_frame(sink, frame)
}

fn put_each_sent<K: Sink>(sink: &mut K, frames: &[Frame]) -> Result<(), WriteFailed>
    requires { All FrameFits frames.now }
    ensures { Puts (K.held sink.old) (K.held sink.new) (K.has_failed sink.old) (K.has_failed sink.new) result (flat_map sent_bytes frames.now) }
{
    for frame in frames {
        put_sent(sink, frame)?;
    }
    Ok(())
}

fn put_frames<K: Sink>(sink: &mut K, frames: &[Frame]) -> Result<(), WriteFailed>
    requires { FramesFit frames.now }
    ensures { Puts (K.held sink.old) (K.held sink.new) (K.has_failed sink.old) (K.has_failed sink.new) result (frames_bytes frames.now) }
{
    put_u16(sink, frames.len() as u16)?;
    put_each_sent(sink, frames)
}

fn put_each_receipt<K: Sink>(
    sink: &mut K,
    version: Version,
    receipts: &[Receipt],
) -> Result<(), WriteFailed>
    ensures { Puts (K.held sink.old) (K.held sink.new) (K.has_failed sink.old) (K.has_failed sink.new) result (flat_map (receipt_bytes version) receipts.now) }
{
    for receipt in receipts {
        put_receipt(sink, version, receipt)?;
    }
    Ok(())
}

fn put_receipts<K: Sink>(
    sink: &mut K,
    version: Version,
    receipts: &[Receipt],
) -> Result<(), WriteFailed>
    requires { length receipts.now < 2 ^ 16 }
    ensures { Puts (K.held sink.old) (K.held sink.new) (K.has_failed sink.old) (K.has_failed sink.new) result (receipts_bytes version receipts.now) }
{
    put_u16(sink, receipts.len() as u16)?;
    put_each_receipt(sink, version, receipts)
}

/// An entry's number, stamp and instance.
fn put_head<K: Sink>(sink: &mut K, entry: &Entry) -> Result<(), WriteFailed>
    ensures { Puts (K.held sink.old) (K.held sink.new) (K.has_failed sink.old) (K.has_failed sink.new) result (head_bytes entry.now) }
{
    put_u32(sink, entry.number)?;
    put_u64(sink, entry.stamp.ticks())?;
    put_instance_or_none(sink, taken_as(entry))
}

/// Writes an entry as it is answered by a node of the version, with these receipts.
pub fn put_entry<K: Sink>(
    sink: &mut K,
    version: Version,
    entry: &Entry,
    receipts: &[Receipt],
) -> Result<(), WriteFailed>
    requires { Fits entry.now.frames receipts.now }
    ensures { Puts (K.held sink.old) (K.held sink.new) (K.has_failed sink.old) (K.has_failed sink.new) result (entry_bytes version entry.now receipts.now) }
{
    put_head(sink, entry)?;
    put_frames(sink, entry.frames.as_slice())?;
    put_receipts(sink, version, receipts)
}

/// Writes that a node took an event, or several: `body` is the count of the entries, and each entry.
pub fn write_taken<K: Sink>(sink: &mut K, body: &[u8]) -> Result<(), WriteFailed>
    requires { 1 + length body.now < 2 ^ 32 }
    ensures { Puts (K.held sink.old) (K.held sink.new) (K.has_failed sink.old) (K.has_failed sink.new) result (taken_bytes body.now) }
{
    put_u32(sink, 1 + body.len() as u32)?;
    put_u8(sink, 1)?;
    put_run(sink, body)
}

/// Writes that a node refused an event, and why.
pub fn write_refused<K: Sink>(sink: &mut K, refusal: &Refusal) -> Result<(), WriteFailed>
    ensures { Puts (K.held sink.old) (K.held sink.new) (K.has_failed sink.old) (K.has_failed sink.new) result (refused_bytes refusal.now) }
{
    put_u32(sink, 5)?;
    put_u8(sink, 2)?;
    put_u8(sink, refusal.code())?;
    put_instance_or_none(sink, refusal.instance())
}

/// That there is none, by an answer of this kind.
fn write_none<K: Sink>(sink: &mut K, kind: u8) -> Result<(), WriteFailed>
    ensures { Puts (K.held sink.old) (K.held sink.new) (K.has_failed sink.old) (K.has_failed sink.new) result (number_bytes 4 2 ++ number_bytes 1 kind ++ number_bytes 1 0) }
{
    put_u32(sink, 2)?;
    put_u8(sink, kind)?;
    put_u8(sink, 0)
}

/// Writes the value that a replica's map has at a key: in each version its length takes two bytes, which suffice.
pub fn write_value<K: Sink>(sink: &mut K, value: &Value) -> Result<(), WriteFailed>
    ensures { Puts (K.held sink.old) (K.held sink.new) (K.has_failed sink.old) (K.has_failed sink.new) result (value_bytes (Some value.now)) }
{
    let value = value.as_slice();
    put_u32(sink, 4 + value.len() as u32)?;
    put_u8(sink, 3)?;
    put_value(sink, Version::V2, value)
}

/// Writes that a replica's map has no value at a key.
pub fn write_no_value<K: Sink>(sink: &mut K) -> Result<(), WriteFailed>
    ensures { Puts (K.held sink.old) (K.held sink.new) (K.has_failed sink.old) (K.has_failed sink.new) result (value_bytes None) }
{
    write_none(sink, 3)
}

/// Writes an instance, or that there is none.
pub fn write_instance<K: Sink>(
    sink: &mut K,
    instance: Option<InstanceId>,
) -> Result<(), WriteFailed>
    ensures { Puts (K.held sink.old) (K.held sink.new) (K.has_failed sink.old) (K.has_failed sink.new) result (instance_bytes instance) }
{
    let Some(instance) = instance else {
        return write_none(sink, 4);
    };
    put_u32(sink, 5)?;
    put_u8(sink, 4)?;
    put_u8(sink, 1)?;
    put_instance(sink, instance)
}

/// The number of the phase.
pub(crate) fn phase_code(leading: &LeadProgress) -> u8
    ensures { result ≡ phase_code leading.now }
{
    match leading {
        LeadProgress::Proposing(_) => 1,
        LeadProgress::Accepting(_) => 2,
        LeadProgress::Preparing(_) => 3,
    }
}

/// How many have answered.
pub(crate) fn answer_count(leading: &LeadProgress) -> u8
    ensures { result ≡ answer_count leading.now }
{
    match leading {
        LeadProgress::Proposing(count)
        | LeadProgress::Accepting(count)
        | LeadProgress::Preparing(count) => *count,
    }
}

/// Writes what a replica leads in an instance, or that it leads nothing there.
pub fn write_leading<K: Sink>(
    sink: &mut K,
    leading: &Option<LeadProgress>,
) -> Result<(), WriteFailed>
    ensures { Puts (K.held sink.old) (K.held sink.new) (K.has_failed sink.old) (K.has_failed sink.new) result (leading_bytes leading.now) }
{
    let Some(leading) = leading else {
        return write_none(sink, 5);
    };
    put_u32(sink, 4)?;
    put_u8(sink, 5)?;
    put_u8(sink, 1)?;
    put_u8(sink, phase_code(leading))?;
    put_u8(sink, answer_count(leading))
}

/// Writes how many entries are on the disk.
pub fn write_synced<K: Sink>(sink: &mut K, entries: u32) -> Result<(), WriteFailed>
    ensures { Puts (K.held sink.old) (K.held sink.new) (K.has_failed sink.old) (K.has_failed sink.new) result (synced_bytes entries) }
{
    put_u32(sink, 5)?;
    put_u8(sink, 6)?;
    put_u32(sink, entries)
}

/// Writes the greatest number of an entry of another replica of which the node has handled a frame; 0 where there is none.
pub fn write_handled<K: Sink>(sink: &mut K, entry: u32) -> Result<(), WriteFailed>
    ensures { Puts (K.held sink.old) (K.held sink.new) (K.has_failed sink.old) (K.has_failed sink.new) result (handled_bytes entry) }
{
    put_u32(sink, 5)?;
    put_u8(sink, 10)?;
    put_u32(sink, entry)
}

/// The field's number.
fn field_code(field: RequestField) -> u8
    ensures { result ≡ field_code field }
{
    match field {
        RequestField::Kind => 1,
        RequestField::Client => 2,
        RequestField::ClientRequest => 3,
        RequestField::Seen => 4,
        RequestField::Op => 5,
        RequestField::KeyLength => 6,
        RequestField::ValueLength => 7,
        RequestField::Key => 8,
        RequestField::Value => 9,
        RequestField::Replica => 10,
        RequestField::Number => 11,
        RequestField::Rest => 12,
        RequestField::FirstLength => 13,
        RequestField::SecondLength => 14,
        RequestField::BodyLength => 15,
        RequestField::FirstKey => 16,
        RequestField::SecondKey => 17,
        RequestField::Body => 18,
        RequestField::After => 19,
        RequestField::Most => 20,
        RequestField::Spared => 21,
        RequestField::Count => 22,
        RequestField::Found => 23,
    }
}

/// Writes that a request is malformed, and where.
pub fn write_malformed<K: Sink>(sink: &mut K, malformed: Malformed) -> Result<(), WriteFailed>
    ensures { Puts (K.held sink.old) (K.held sink.new) (K.has_failed sink.old) (K.has_failed sink.new) result (malformed_bytes malformed) }
{
    put_u32(sink, 10)?;
    put_u8(sink, 7)?;
    put_u8(sink, field_code(malformed.field))?;
    put_u64(sink, malformed.at)
}

/// The byte that says whether a seal was executed: 1 where one was, else 0.
pub fn sealed_code(is_sealed: bool) -> u8
    ensures { result ≡ sealed_code is_sealed }
{
    if is_sealed { 1 } else { 0 }
}

/// The generation, and how many entries there are.
fn put_counts<K: Sink>(sink: &mut K, state: &NodeState) -> Result<(), WriteFailed>
    ensures { Puts (K.held sink.old) (K.held sink.new) (K.has_failed sink.old) (K.has_failed sink.new) result (counts_bytes state.now) }
{
    put_u32(sink, state.generation)?;
    put_u32(sink, state.entries)
}

/// What says when to seal, and the last stamp.
fn put_space<K: Sink>(sink: &mut K, state: &NodeState) -> Result<(), WriteFailed>
    ensures { Puts (K.held sink.old) (K.held sink.new) (K.has_failed sink.old) (K.has_failed sink.new) result (space_bytes state.now) }
{
    put_u16(sink, state.used)?;
    put_u16(sink, state.deps)?;
    put_u8(sink, sealed_code(state.is_sealed))?;
    put_u64(sink, state.stamp)
}

/// Writes what a node says of itself.
pub fn write_state<K: Sink>(sink: &mut K, state: &NodeState) -> Result<(), WriteFailed>
    ensures { Puts (K.held sink.old) (K.held sink.new) (K.has_failed sink.old) (K.has_failed sink.new) result (state_bytes state.now) }
{
    put_u32(sink, 22)?;
    put_u8(sink, 8)?;
    put_counts(sink, state)?;
    put_space(sink, state)
}
