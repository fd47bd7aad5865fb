//! Writing a reference.

ghost use Rattle.std.specs.Prelude.{◌≡◌, IfOk};
ghost use Rattle.ep_base.specs.Devices.{Puts};
ghost use Rattle.ep_opening.specs.References.{body_bytes, lead_bytes, name_bytes, reference_bytes};

use crate::digest::digest_of;
use crate::opening_reference::OpeningReference;
use ep_base::{Noted, Sink, WriteFailed};
use ep_bundle::{put_run, put_u8, put_u32, put_u64};
use std::alloc::{AllocError, Global};

/// How many bytes a reference has.
const REFERENCE_LEN: usize = 82;

/// What says that this is a reference, of version 3.
fn put_lead<K: Sink>(sink: &mut K) -> Result<(), WriteFailed>
    ensures { Puts (K.held sink.old) (K.held sink.new) (K.has_failed sink.old) (K.has_failed sink.new) result lead_bytes }
{
    put_u32(sink, 0x4550_4f52)?;
    put_u8(sink, 3)
}

/// What it names.
fn put_name<K: Sink>(sink: &mut K, reference: &OpeningReference) -> Result<(), WriteFailed>
    ensures { Puts (K.held sink.old) (K.held sink.new) (K.has_failed sink.old) (K.has_failed sink.new) result (name_bytes reference.now) }
{
    put_u8(sink, reference.size().count())?;
    put_u32(sink, reference.generation().number())?;
    put_u64(sink, reference.length())?;
    put_run(sink, &reference.sum())
}

/// All but the digest.
fn put_body<K: Sink>(sink: &mut K, reference: &OpeningReference) -> Result<(), WriteFailed>
    ensures { Puts (K.held sink.old) (K.held sink.new) (K.has_failed sink.old) (K.has_failed sink.new) result (body_bytes reference.now) }
{
    put_lead(sink)?;
    put_name(sink, reference)
}

/// The bytes of all but the digest, with room for it.
fn body_of(alloc: Global, reference: &OpeningReference) -> Result<Vec<u8>, AllocError>
    ensures { IfOk result (λ bytes. bytes.items ≡ body_bytes reference.now) }
{
    let mut sink = Noted::new(Vec::with_capacity(alloc, REFERENCE_LEN)?);
    match put_body(&mut sink, reference) {
        Ok(()) => Ok(sink.into_inner()),
        Err(_) => Err(AllocError),
    }
}

/// The bytes of a reference: 82, of which the last 32 are its digest, which the log of its generation names.
pub fn write_reference(alloc: Global, reference: &OpeningReference) -> Result<Vec<u8>, AllocError>
    ensures { IfOk result (λ bytes. bytes.items ≡ reference_bytes reference.now) }
{
    let mut bytes = body_of(alloc, reference)?;
    let digest = digest_of(&bytes);
    bytes.extend_from_slice(&digest)?;
    Ok(bytes)
}
