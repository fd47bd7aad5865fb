//! Writing what there is to report.

ghost use Rattle.std.specs.Prelude.{◌≡◌, ◌<◌, ◌+◌, ◌^◌, length};
ghost use Rattle.std.specs.List.{flat_map};
ghost use Rattle.ep_base.specs.Devices.{Puts};
ghost use Rattle.ep_frame.specs.Fields.{dep_bytes};
ghost use Rattle.ep_wire.specs.Answers.{instances_bytes, led_bytes, open_bytes, ready_bytes, reported_receipts_bytes};
ghost use Rattle.ep_rules.specs.States.{or_zero};

use crate::answers::{answer_count, phase_code};
use crate::lead_progress::LeadProgress;
use ep_base::{InstanceId, Sink, Version, WriteFailed};
use ep_bundle::{put_instance, put_receipts, put_run, put_u8, put_u32};
use ep_rules::Receipt;

/// Instances, one after the other.
fn put_each_instance<K: Sink>(sink: &mut K, instances: &[InstanceId]) -> Result<(), WriteFailed>
    ensures { Puts (K.held sink.old) (K.held sink.new) (K.has_failed sink.old) (K.has_failed sink.new) result (flat_map dep_bytes instances.now) }
{
    for instance in instances {
        put_instance(sink, *instance)?;
    }
    Ok(())
}

/// Writes instances, with their count in four bytes before them.
pub fn put_instances<K: Sink>(sink: &mut K, instances: &[InstanceId]) -> Result<(), WriteFailed>
    requires { length instances.now < 2 ^ 32 }
    ensures { Puts (K.held sink.old) (K.held sink.new) (K.has_failed sink.old) (K.has_failed sink.new) result (instances_bytes instances.now) }
{
    put_u32(sink, instances.len() as u32)?;
    put_each_instance(sink, instances)
}

/// Writes receipts as they stand in a bundle of the version, with their count in four bytes before them.
pub fn put_reported_receipts<K: Sink>(
    sink: &mut K,
    version: Version,
    receipts: &[Receipt],
) -> Result<(), WriteFailed>
    requires { length receipts.now < 2 ^ 32 }
    ensures { Puts (K.held sink.old) (K.held sink.new) (K.has_failed sink.old) (K.has_failed sink.new) result (reported_receipts_bytes version receipts.now) }
{
    put_u32(sink, receipts.len() as u32)?;
    put_receipts(sink, version, receipts)
}

/// The number, 0 where there is none.
fn number_or_zero(number: Option<u32>) -> u32
    ensures { result ≡ or_zero number }
{
    match number {
        Some(number) => number,
        None => 0,
    }
}

/// What is led, or two zero bytes.
fn put_led<K: Sink>(sink: &mut K, leading: &Option<LeadProgress>) -> Result<(), WriteFailed>
    ensures { Puts (K.held sink.old) (K.held sink.new) (K.has_failed sink.old) (K.has_failed sink.new) result (led_bytes leading.now) }
{
    let Some(leading) = leading else {
        return put_run(sink, &[0, 0]);
    };
    put_u8(sink, phase_code(leading))?;
    put_u8(sink, answer_count(leading))
}

/// Writes an open instance, with the number of the first entry that is about it, if there is one, and with what is led there.
pub fn put_open<K: Sink>(
    sink: &mut K,
    instance: InstanceId,
    since: Option<u32>,
    leading: &Option<LeadProgress>,
) -> Result<(), WriteFailed>
    ensures { Puts (K.held sink.old) (K.held sink.new) (K.has_failed sink.old) (K.has_failed sink.new) result (open_bytes instance since leading.now) }
{
    put_instance(sink, instance)?;
    put_u32(sink, number_or_zero(since))?;
    put_led(sink, leading)
}

/// Writes what there is to report.
pub fn write_ready<K: Sink>(sink: &mut K, body: &[u8]) -> Result<(), WriteFailed>
    requires { 1 + length body.now < 2 ^ 32 }
    ensures { Puts (K.held sink.old) (K.held sink.new) (K.has_failed sink.old) (K.has_failed sink.new) result (ready_bytes body.now) }
{
    put_u32(sink, 1 + body.len() as u32)?;
    put_u8(sink, 9)?;
    put_run(sink, body)
}
