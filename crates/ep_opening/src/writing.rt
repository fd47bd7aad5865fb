//! Writing a file.

ghost use Rattle.std.specs.Prelude.{◌≡◌, ◌++◌, length, IfOk};
ghost use Rattle.std.specs.List.{flat_map};
ghost use Rattle.ep_base.specs.Devices.{Puts};
ghost use Rattle.ep_frame.specs.Fields.{dep_bytes, number_bytes};
ghost use Rattle.ep_opening.specs.Bytes.{body_bytes, executed_bytes, front_bytes, lead_bytes, opening_bytes, seal_bytes};

use crate::digest::digest_of;
use crate::opening_file::OpeningFile;
use ep_base::{Deps, InstanceId, Noted, Sink, Value, WriteFailed};
use ep_bundle::{put_instance, put_run, put_u8, put_u32, put_u64, write_contents};
use ep_exec::Listing;
use std::alloc::{AllocError, Global};

/// What says that this is an opening file, of version 3.
pub(crate) fn put_lead<K: Sink>(sink: &mut K) -> Result<(), WriteFailed>
    ensures { Puts (K.held sink.old) (K.held sink.new) (K.has_failed sink.old) (K.has_failed sink.new) result lead_bytes }
{
    put_u32(sink, 0x4550_4f50)?;
    put_u8(sink, 3)
}

/// A seal's value, with its length before it.
fn put_value<K: Sink>(sink: &mut K, value: &Value) -> Result<(), WriteFailed>
    ensures { Puts (K.held sink.old) (K.held sink.new) (K.has_failed sink.old) (K.has_failed sink.new) result (number_bytes 4 (length value.now) ++ value.now) }
{
    put_u32(sink, value.len() as u32)?;
    put_run(sink, value.as_slice())
}

/// Whether a seal began the generation, and its value.
fn put_seal<K: Sink>(sink: &mut K, file: &OpeningFile) -> Result<(), WriteFailed>
    ensures { Puts (K.held sink.old) (K.held sink.new) (K.has_failed sink.old) (K.has_failed sink.new) result (seal_bytes file.now.seal) }
{
    match file.seal() {
        None => put_u8(sink, 0),
        Some(value) => {
            put_u8(sink, 1)?;
            put_value(sink, value)
        }
    }
}

/// What stands between the version and the map.
pub(crate) fn put_front<K: Sink>(sink: &mut K, file: &OpeningFile) -> Result<(), WriteFailed>
    ensures { Puts (K.held sink.old) (K.held sink.new) (K.has_failed sink.old) (K.has_failed sink.new) result (front_bytes file.now) }
{
    put_u8(sink, file.size().count())?;
    put_u32(sink, file.generation().number())?;
    put_u64(sink, file.opening().base_stamp())?;
    put_seal(sink, file)
}

/// Each of the instances.
fn put_instances<K: Sink>(sink: &mut K, instances: &[InstanceId]) -> Result<(), WriteFailed>
    ensures { Puts (K.held sink.old) (K.held sink.new) (K.has_failed sink.old) (K.has_failed sink.new) result (flat_map dep_bytes instances.now) }
{
    for instance in instances {
        put_instance(sink, *instance)?;
    }
    Ok(())
}

/// The instances that the generation before executed, with their number before them.
pub(crate) fn put_executed<K: Sink>(sink: &mut K, executed: &Deps) -> Result<(), WriteFailed>
    ensures { Puts (K.held sink.old) (K.held sink.new) (K.has_failed sink.old) (K.has_failed sink.new) result (executed_bytes executed.now) }
{
    put_u32(sink, executed.len() as u32)?;
    put_instances(sink, executed.as_slice())
}

/// All but the digest.
fn put_body<K: Sink>(sink: &mut K, file: &OpeningFile, map: &Listing) -> Result<(), WriteFailed>
    requires { map.now ≡ file.now.opening.contents }
    ensures { Puts (K.held sink.old) (K.held sink.new) (K.has_failed sink.old) (K.has_failed sink.new) result (body_bytes file.now) }
{
    put_lead(sink)?;
    put_front(sink, file)?;
    let _contents = file.opening().contents();
    write_contents(map, sink)?;
    put_executed(sink, file.executed())
}

/// How many bytes the file has, or fewer.
fn room(file: &OpeningFile, map: &Listing) -> usize {
    let mut room = 59 + 3 * file.executed().len();
    if let Some(value) = file.seal() {
        room += 4 + value.len();
    }
    for (key, value) in map.entries() {
        room = room.saturating_add(5 + key.as_slice().len() + value.len());
    }
    room
}

/// The bytes of all but the digest, with room for it.
fn body_of(alloc: Global, file: &OpeningFile) -> Result<Vec<u8>, AllocError>
    ensures { IfOk result (λ bytes. bytes.items ≡ body_bytes file.now) }
{
    let map = file.opening().contents().listing()?;
    let mut sink = Noted::new(Vec::with_capacity(alloc, room(file, &map))?);
    match put_body(&mut sink, file, &map) {
        Ok(()) => Ok(sink.into_inner()),
        Err(_) => Err(AllocError),
    }
}

/// The bytes of the file.
pub fn write_opening(alloc: Global, file: &OpeningFile) -> Result<Vec<u8>, AllocError>
    ensures { IfOk result (λ bytes. bytes.items ≡ opening_bytes file.now) }
{
    let mut bytes = body_of(alloc, file)?;
    let digest = digest_of(&bytes);
    bytes.extend_from_slice(&digest)?;
    Ok(bytes)
}
