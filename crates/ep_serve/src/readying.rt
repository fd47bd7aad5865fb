//! What there is to report, as an answer.

ghost use Rattle.std.specs.Prelude.{◌≡◌, ◌<◌, ◌+◌, ◌++◌, ◌^◌, [], None, Some, drop, is_some, length, IfOk, OnOk};
ghost use Rattle.std.specs.Io.KnownBytes.{Appends};
ghost use Rattle.std.specs.List.{flat_map};
ghost use Rattle.std.specs.Option.{option_map};
ghost use Rattle.ep_serve.specs.Answering.{happened_bytes, leading_of, open_instance_bytes, open_instances_bytes, outgoing_bytes, sent_frames_bytes, summary_bytes, AnswersOne};
ghost use Rattle.ep_serve.specs.declared.pending_answer.PendingAnswer.TheVariants as due;
ghost use Rattle.ep_wire.specs.Answers.{ready_bytes, sent_bytes, reported_receipts_bytes};

use crate::answer_fault::AnswerFault;
use crate::asked::leading_of;
use ep_base::{InstanceId, Noted, Sink, Version};
use ep_bundle::{put_u8, put_u32};
use ep_device::Device;
use ep_frame::Frame;
use ep_node::{Node, OpenInstance, Ready};
use ep_rules::Receipt;
use ep_wire::{
    LeadProgress, put_instances, put_open, put_reported_receipts, put_sent, sealed_code,
    write_ready,
};
use std::alloc::Global;

/// A frame, with its receiver before it.
fn put_sent_frame<K: Sink>(sink: &mut K, frame: &Frame) -> Result<(), AnswerFault>
    ensures { OnOk result (Appends (K.held sink.old) (K.held sink.new) (sent_bytes frame.now)) }
{
    if frame.as_slice().len() >= 0xffff_ffff {
        return Err(AnswerFault);
    }
    put_sent(sink, frame)?;
    Ok(())
}

fn put_each_frame<K: Sink>(sink: &mut K, frames: &[Frame]) -> Result<(), AnswerFault>
    ensures { OnOk result (Appends (K.held sink.old) (K.held sink.new) (flat_map sent_bytes frames.now)) }
{
    for frame in frames {
        put_sent_frame(sink, frame)?;
    }
    Ok(())
}

/// Frames, counted.
fn put_sent_frames<K: Sink>(sink: &mut K, frames: &[Frame]) -> Result<(), AnswerFault>
    ensures { OnOk result (Appends (K.held sink.old) (K.held sink.new) (sent_frames_bytes frames.now)) }
{
    let Ok(count) = u32::try_from(frames.len()) else {
        return Err(AnswerFault);
    };
    put_u32(sink, count)?;
    put_each_frame(sink, frames)
}

/// Receipts, counted.
fn put_receipts<K: Sink>(
    sink: &mut K,
    version: Version,
    receipts: &[Receipt],
) -> Result<(), AnswerFault>
    ensures { OnOk result (Appends (K.held sink.old) (K.held sink.new) (reported_receipts_bytes version receipts.now)) }
{
    if receipts.len() >= 0xffff_ffff {
        return Err(AnswerFault);
    }
    put_reported_receipts(sink, version, receipts)?;
    Ok(())
}

/// What goes out.
fn put_outgoing<K: Sink>(
    sink: &mut K,
    version: Version,
    frames: &[Frame],
    receipts: &[Receipt],
) -> Result<(), AnswerFault>
    ensures { OnOk result (Appends (K.held sink.old) (K.held sink.new) (outgoing_bytes version frames.now receipts.now)) }
{
    put_sent_frames(sink, frames)?;
    put_receipts(sink, version, receipts)
}

/// What happened.
fn put_happened<K: Sink>(
    sink: &mut K,
    committed: &[InstanceId],
    executed: &[InstanceId],
) -> Result<(), AnswerFault>
    ensures { OnOk result (Appends (K.held sink.old) (K.held sink.new) (happened_bytes committed.now executed.now)) }
{
    if committed.len() >= 0xffff_ffff || executed.len() >= 0xffff_ffff {
        return Err(AnswerFault);
    }
    put_instances(sink, committed)?;
    put_instances(sink, executed)?;
    Ok(())
}

/// What is led there, as it is written.
fn leading_in(reported: &OpenInstance) -> Option<LeadProgress>
    ensures { result ≡ option_map leading_of reported.now.leads }
{
    match reported.leads {
        Some((phase, answers)) => Some(leading_of(phase, answers)),
        None => None,
    }
}

/// An open instance.
fn put_open_instance<K: Sink>(sink: &mut K, reported: &OpenInstance) -> Result<(), AnswerFault>
    ensures { OnOk result (Appends (K.held sink.old) (K.held sink.new) (open_instance_bytes reported.now)) }
{
    let leading = leading_in(reported);
    put_open(sink, reported.instance, reported.since, &leading)?;
    Ok(())
}

fn put_each_open<K: Sink>(sink: &mut K, reported: &[OpenInstance]) -> Result<(), AnswerFault>
    ensures { OnOk result (Appends (K.held sink.old) (K.held sink.new) (flat_map open_instance_bytes reported.now)) }
{
    for one in reported {
        put_open_instance(sink, one)?;
    }
    Ok(())
}

/// Open instances, counted.
fn put_open_instances<K: Sink>(sink: &mut K, reported: &[OpenInstance]) -> Result<(), AnswerFault>
    ensures { OnOk result (Appends (K.held sink.old) (K.held sink.new) (open_instances_bytes reported.now)) }
{
    let Ok(count) = u8::try_from(reported.len()) else {
        return Err(AnswerFault);
    };
    put_u8(sink, count)?;
    put_each_open(sink, reported)
}

/// How many entries there are, and whether a seal was executed.
fn put_summary<K: Sink>(sink: &mut K, entries: u32, is_sealed: bool) -> Result<(), AnswerFault>
    ensures { OnOk result (Appends (K.held sink.old) (K.held sink.new) (summary_bytes entries is_sealed)) }
{
    put_u32(sink, entries)?;
    put_u8(sink, sealed_code(is_sealed))?;
    Ok(())
}

/// How many entries there are, whether a seal was executed, and what goes out.
fn put_first_half<K: Sink>(sink: &mut K, version: Version, ready: &Ready) -> Result<(), AnswerFault>
    ensures { OnOk result (Appends (K.held sink.old) (K.held sink.new) (summary_bytes ready.now.entries ready.now.is_sealed ++ outgoing_bytes version ready.now.frames.items ready.now.receipts.items)) }
{
    put_summary(sink, ready.entries, ready.is_sealed)?;
    put_outgoing(sink, version, &ready.frames, &ready.receipts)
}

/// What happened, and what is open.
fn put_second_half<K: Sink>(sink: &mut K, ready: &Ready) -> Result<(), AnswerFault>
    ensures { OnOk result (Appends (K.held sink.old) (K.held sink.new) (happened_bytes ready.now.committed.items ready.now.executed.items ++ open_instances_bytes ready.now.still_open.items)) }
{
    put_happened(sink, &ready.committed, &ready.executed)?;
    put_open_instances(sink, &ready.still_open)
}

/// All that there is to report.
fn put_all<K: Sink>(sink: &mut K, version: Version, ready: &Ready) -> Result<(), AnswerFault>
    ensures { OnOk result (Appends (K.held sink.old) (K.held sink.new)
        ((summary_bytes ready.now.entries ready.now.is_sealed ++ outgoing_bytes version ready.now.frames.items ready.now.receipts.items)
        ++ (happened_bytes ready.now.committed.items ready.now.executed.items ++ open_instances_bytes ready.now.still_open.items))) }
{
    put_first_half(sink, version, ready)?;
    put_second_half(sink, ready)
}

/// The bytes of all that there is to report.
fn body_of(alloc: Global, version: Version, ready: &Ready) -> Result<Vec<u8>, AnswerFault>
    ensures { IfOk result (λ body. Appends (Some []) (Some body.items)
        ((summary_bytes ready.now.entries ready.now.is_sealed ++ outgoing_bytes version ready.now.frames.items ready.now.receipts.items)
        ++ (happened_bytes ready.now.committed.items ready.now.executed.items ++ open_instances_bytes ready.now.still_open.items))) }
{
    let mut body = Noted::new(Vec::with_capacity(alloc, 1_024)?);
    put_all(&mut body, version, ready)?;
    Ok(body.into_inner())
}

/// These bytes, as the answer that they are the body of.
fn put_body<K: Sink>(sink: &mut K, body: &[u8]) -> Result<(), AnswerFault>
    ensures { OnOk result (Appends (K.held sink.old) (K.held sink.new) (ready_bytes body.now)) }
{
    if body.len() >= 0xffff_ffff {
        return Err(AnswerFault);
    }
    write_ready(sink, body)?;
    Ok(())
}

/// What there is to report of the node's entries after the first ones, so many, and of at most so many open instances.
pub(crate) fn put_ready<D: Device, K: Sink>(
    alloc: Global,
    sink: &mut K,
    node: &mut Node<D>,
    after: u32,
    most: u8,
) -> Result<(), AnswerFault>
    ensures same { node.new ≡ node.old }
    ensures reported { OnOk result (AnswersOne node.old.replica (due.Ready after most) (K.held sink.old) (K.held sink.new)) }
{
    let version = node.version();
    let Ok(ready) = node.ready(alloc, after, most) else {
        return Err(AnswerFault);
    };
    let made = body_of(alloc, version, &ready);
    drop(ready);
    let body = made?;
    put_body(sink, &body)
}
