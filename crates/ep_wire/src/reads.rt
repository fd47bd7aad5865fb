//! Bodies of requests for reads that write nothing, and the answers to them.

ghost use Rattle.std.specs.Prelude.{◌≡◌, ◌≤◌, ◌+◌, ◌*◌, ℕ, List, Some, IfOk, IfErr, length};
ghost use Rattle.std.specs.List.{sum_by};
ghost use Rattle.ep_base.specs.Devices.{FailsAsReported, Puts};
ghost use Rattle.ep_base.specs.Quorums.{size};
ghost use Rattle.ep_base.specs.declared.version_kind.VersionKind.TheVariants.{V3};
ghost use Rattle.ep_bundle.specs.Bytes.{one_reported_bytes, reported_bytes};
ghost use Rattle.ep_bundle.specs.Reading.{is_read_failed, Reads};
ghost use Rattle.ep_bundle.specs.declared.bundle_fault.BundleFault.TheVariants.{Memory};
ghost use Rattle.ep_wire.specs.Answers.{interfering_bytes, plain_bytes, present_bytes, reply_bytes, reported_reply_bytes, waits_bytes};
ghost use Rattle.ep_wire.specs.Requests.{alone, found, given, key_field, read, whole};

use crate::bodies::place_of;
use crate::instances::Instances;
use crate::reporting::put_instances;
use crate::request::Request;
use ep_base::{
    InstanceId, Key, Noted, Reply, ReplyValues, Sink, Source, Value, Version, WriteFailed,
};
use ep_bundle::{
    BundleFault, BundleField, JournalDialect, field_u8, field_u32, put_instance, put_reported,
    put_u8, put_u32, put_value, read_end, read_instance, read_run,
};
use std::alloc::{AllocError, Global};

/// How many instances a request names at most: as many as a cluster has.
const MOST_FOUND: u32 = 63_000;

/// The key of these bytes, which are 1 to 255.
fn key_of(alloc: Global, bytes: &[u8]) -> Result<Key, BundleFault>
    requires { (1 ≤ length bytes.now) × (length bytes.now ≤ 255) }
    ensures ok { IfOk result (λ k. k ≡ bytes.now) }
    ensures err { IfErr result (λ fault. fault ≡ Memory) }
{
    match Key::new(alloc, bytes) {
        Ok(key) => Ok(key),
        Err(_) => Err(BundleFault::Memory),
    }
}

/// A key, with its length before it.
fn read_key<S: Source>(alloc: Global, source: &mut S, place: &mut u64) -> Result<Key, BundleFault>
    ensures bytes { (zs : List ℕ) → S.left source.old ≡ Some zs → Reads (key_field (record { at = place.old; bytes = zs })) result place.new (S.left source.new) }
    ensures reported { FailsAsReported is_read_failed result (S.has_failed source.old) (S.has_failed source.new) }
{
    let len = field_u8(source, place, BundleField::Other, 1, 255)?;
    let bytes = read_run(alloc, source, place, BundleField::Other, len as usize)?;
    key_of(alloc, &bytes)
}

/// Instances, with their count before them.
fn read_found<S: Source>(
    alloc: Global,
    source: &mut S,
    place: &mut u64,
    dialect: &JournalDialect,
) -> Result<Instances, BundleFault>
    ensures bytes { (zs : List ℕ) → S.left source.old ≡ Some zs → Reads (found dialect.now (record { at = place.old; bytes = zs })) result place.new (S.left source.new) }
    ensures reported { FailsAsReported is_read_failed result (S.has_failed source.old) (S.has_failed source.new) }
{
    let count = field_u32(source, place, BundleField::Other, 0, MOST_FOUND)?;
    let mut items = Vec::new(alloc);
    for _ in 0..count {
        let instance = read_instance(source, place, dialect.version, dialect.size)?;
        items.push(instance)?;
    }
    Ok(Instances::new(items))
}

/// A key, and what the looks for it found.
fn read_read<S: Source>(
    alloc: Global,
    source: &mut S,
    place: &mut u64,
    dialect: &JournalDialect,
) -> Result<Request, BundleFault>
    ensures bytes { (zs : List ℕ) → S.left source.old ≡ Some zs → Reads (read dialect.now (record { at = place.old; bytes = zs })) result place.new (S.left source.new) }
    ensures reported { FailsAsReported is_read_failed result (S.has_failed source.old) (S.has_failed source.new) }
{
    let key = read_key(alloc, source, place)?;
    let found = read_found(alloc, source, place, dialect)?;
    Ok(Request::Read { key, found })
}

/// A key and what the looks found, and nothing after it.
fn read_lone_read<S: Source>(
    alloc: Global,
    source: &mut S,
    place: &mut u64,
    dialect: &JournalDialect,
) -> Result<Request, BundleFault>
    ensures bytes { (zs : List ℕ) → S.left source.old ≡ Some zs → Reads (alone (read dialect.now (record { at = place.old; bytes = zs }))) result place.new (S.left source.new) }
    ensures reported { FailsAsReported is_read_failed result (S.has_failed source.old) (S.has_failed source.new) }
{
    let request = read_read(alloc, source, place, dialect)?;
    read_end(source, place)?;
    Ok(request)
}

/// The read that the body is, or where it is at fault.
pub(crate) fn read_in(
    alloc: Global,
    body: &[u8],
    dialect: &JournalDialect,
) -> Result<Result<Request, u64>, AllocError>
    ensures { IfOk result (λ o. o ≡ given (alone (read dialect.now (whole body.now)))) }
{
    let mut source = Noted::new(body);
    let mut place = 5;
    match read_lone_read(alloc, &mut source, &mut place, dialect) {
        Ok(request) => Ok(Ok(request)),
        Err(fault) => {
            let at = place_of(fault)?;
            Ok(Err(at))
        }
    }
}

/// Writes what interferes with a command.
pub fn write_interfering<K: Sink>(sink: &mut K, found: &[InstanceId]) -> Result<(), WriteFailed>
    requires { length found.now ≤ 63000 }
    ensures { Puts (K.held sink.old) (K.held sink.new) (K.has_failed sink.old) (K.has_failed sink.new) result (interfering_bytes found.now) }
{
    put_u32(sink, 5 + 3 * (found.len() as u32))?;
    put_u8(sink, 11)?;
    put_instances(sink, found)
}

/// Writes that a read waits for an instance.
pub fn write_waits<K: Sink>(sink: &mut K, instance: InstanceId) -> Result<(), WriteFailed>
    ensures { Puts (K.held sink.old) (K.held sink.new) (K.has_failed sink.old) (K.has_failed sink.new) result (waits_bytes instance) }
{
    put_u32(sink, 5)?;
    put_u8(sink, 12)?;
    put_u8(sink, 2)?;
    put_instance(sink, instance)
}

/// Writes what a read is answered.
pub fn write_reply<K: Sink>(sink: &mut K, reply: &Reply) -> Result<(), WriteFailed>
    ensures { Puts (K.held sink.old) (K.held sink.new) (K.has_failed sink.old) (K.has_failed sink.new) result (reply_bytes reply.now) }
{
    match reply {
        Reply::Absent => write_plain(sink, 0),
        Reply::Present(value) => write_present(sink, value),
        Reply::Closed => write_plain(sink, 3),
        Reply::Ordered => write_plain(sink, 4),
        Reply::Done(reported) => write_reported(sink, 5, reported),
        Reply::Undone(reported) => write_reported(sink, 6, reported),
    }
}

/// Writes the reply of this code with these values, as they stand in an answer of version 3.
fn write_reported<K: Sink>(
    sink: &mut K,
    code: u8,
    reported: &ReplyValues,
) -> Result<(), WriteFailed>
    ensures { Puts (K.held sink.old) (K.held sink.new) (K.has_failed sink.old) (K.has_failed sink.new) result (reported_reply_bytes code reported.now) }
{
    put_u32(sink, reported_reply_len(reported))?;
    put_u8(sink, 12)?;
    put_u8(sink, code)?;
    put_reported_in_third(sink, reported)
}

/// Writes these values as an answer of version 3 has them, of whatever generation.
fn put_reported_in_third<K: Sink>(sink: &mut K, reported: &ReplyValues) -> Result<(), WriteFailed>
    ensures { Puts (K.held sink.old) (K.held sink.new) (K.has_failed sink.old) (K.has_failed sink.new) result (reported_bytes (V3 1) reported.now) }
{
    put_reported(sink, Version::from_valid(3, 1), reported)
}

/// How many bytes follow the length of the reply with these values.
fn reported_reply_len(reported: &ReplyValues) -> u32
    ensures { result ≡ 2 + length (reported_bytes (V3 1) reported.now) }
{
    4 + reported_len(reported.as_slice())
}

/// How many bytes these values take behind their count.
fn reported_len(values: &[Option<Value>]) -> u32
    requires { length values.now ≤ 16 }
    ensures value { result ≡ sum_by (λ o. length (one_reported_bytes (V3 1) o)) values.now }
    ensures bound { result ≤ 16 * 65540 }
{
    let mut len = 0;
    for value in values {
        len += one_reported_len(value);
    }
    len
}

#[tactic(auto, using(crate::proofs::ReportedLengths::none_size, crate::proofs::ReportedLengths::some_size))]
fn one_reported_len(value: &Option<Value>) -> u32
    ensures value { result ≡ length (one_reported_bytes (V3 1) value.now) }
    ensures bound { result ≤ 65540 }
{
    match value {
        None => 1,
        Some(value) => 5 + value.len() as u32,
    }
}

/// Writes a reply that says no value.
fn write_plain<K: Sink>(sink: &mut K, code: u8) -> Result<(), WriteFailed>
    ensures { Puts (K.held sink.old) (K.held sink.new) (K.has_failed sink.old) (K.has_failed sink.new) result (plain_bytes code) }
{
    put_u32(sink, 2)?;
    put_u8(sink, 12)?;
    put_u8(sink, code)
}

/// Writes the reply with this value.
fn write_present<K: Sink>(sink: &mut K, value: &Value) -> Result<(), WriteFailed>
    ensures { Puts (K.held sink.old) (K.held sink.new) (K.has_failed sink.old) (K.has_failed sink.new) result (present_bytes value.now) }
{
    let value = value.as_slice();
    put_u32(sink, 4 + value.len() as u32)?;
    put_u8(sink, 12)?;
    put_value(sink, Version::V2, value)
}
