//! Reading a reference.

ghost use Rattle.std.specs.Prelude.{◌≡◌, ℕ, List, Some, IfOk, IfErr};
ghost use Rattle.ep_bundle.specs.Reading.{field, run, Reads};
ghost use Rattle.ep_opening.specs.Reading.{lead_field, file_reading, IsReadAs, ReadsAs};
ghost use Rattle.ep_opening.specs.References.{reference_bytes};
ghost use Rattle.ep_opening.specs.ReferenceReading.{body_in, lead, name, name_field, parts, reference, IsRefused};

use crate::digest::DIGEST_LEN;
use crate::opening_fault::OpeningFault;
use crate::opening_field::OpeningField;
use crate::opening_reference::OpeningReference;
use crate::parts::{lead_field, place_of, report_end};
use crate::reading::{are_bytes, is_sealed};
use ep_base::{Generation, Noted, Source};
use ep_bundle::{BundleFault, BundleField, field_u8, field_u32, field_u64, read_cluster, read_run};
use std::alloc::Global;

/// How many bytes a reference has.
const REFERENCE_LEN: usize = 82;

/// What says that this is a reference, of version 3.
fn read_lead<S: Source>(source: &mut S, place: &mut u64) -> Result<u8, BundleFault>
    ensures { (zs : List ℕ) → S.left source.old ≡ Some zs → Reads (lead (record { at = place.old; bytes = zs })) result place.new (S.left source.new) }
{
    field_u32(source, place, BundleField::Other, 0x4550_4f52, 0x4550_4f52)?;
    field_u8(source, place, BundleField::Other, 3, 3)
}

/// The generation, from 2.
fn read_generation<S: Source>(source: &mut S, place: &mut u64) -> Result<Generation, BundleFault>
    ensures { (zs : List ℕ) → S.left source.old ≡ Some zs → Reads (field BundleField.Other 4 2 4294967295 (record { at = place.old; bytes = zs })) result place.new (S.left source.new) }
{
    let number = field_u32(source, place, BundleField::Other, 2, u32::MAX)?;
    // The number is in range, so the generation is made.
    Generation::new(number).map_err(|_| BundleFault::Memory)
}

/// A SHA-256.
fn read_sum<S: Source>(
    alloc: Global,
    source: &mut S,
    place: &mut u64,
) -> Result<[u8; 32], BundleFault>
    ensures { (zs : List ℕ) → S.left source.old ≡ Some zs → Reads (run BundleField.Other 32 (record { at = place.old; bytes = zs })) result place.new (S.left source.new) }
{
    let bytes = read_run(alloc, source, place, BundleField::Other, 32)?;
    let mut sum = [0; 32];
    sum.copy_from_slice(&bytes);
    Ok(sum)
}

/// What it names.
fn read_name<S: Source>(
    alloc: Global,
    source: &mut S,
    place: &mut u64,
) -> Result<OpeningReference, BundleFault>
    ensures { (zs : List ℕ) → S.left source.old ≡ Some zs → Reads (name (record { at = place.old; bytes = zs })) result place.new (S.left source.new) }
{
    let size = read_cluster(source, place)?;
    let generation = read_generation(source, place)?;
    let length = field_u64(source, place, BundleField::Other, 43, u64::MAX)?;
    let sum = read_sum(alloc, source, place)?;
    OpeningReference::new(size, generation, length, sum).map_err(|_| BundleFault::Memory)
}

/// The field of what it names that begins here.
fn name_field(at: u64) -> OpeningField
    ensures { result ≡ name_field at }
{
    if at < 6 {
        OpeningField::Replicas
    } else if at < 10 {
        OpeningField::Generation
    } else {
        OpeningField::Log
    }
}

/// What says that this is a reference, of version 3.
fn report_lead<S: Source>(source: &mut S, place: &mut u64) -> Result<u8, OpeningFault>
    ensures { (zs : List ℕ) → S.left source.old ≡ Some zs → ReadsAs (file_reading lead_field (lead (record { at = place.old; bytes = zs }))) result place.new (S.left source.new) }
{
    match read_lead(source, place) {
        Ok(version) => Ok(version),
        Err(fault) => {
            let at = place_of(fault)?;
            Err(OpeningFault::Wrong(at, lead_field(at)))
        }
    }
}

/// What it names.
fn report_name<S: Source>(
    alloc: Global,
    source: &mut S,
    place: &mut u64,
) -> Result<OpeningReference, OpeningFault>
    ensures { (zs : List ℕ) → S.left source.old ≡ Some zs → ReadsAs (file_reading name_field (name (record { at = place.old; bytes = zs }))) result place.new (S.left source.new) }
{
    match read_name(alloc, source, place) {
        Ok(reference) => Ok(reference),
        Err(fault) => {
            let at = place_of(fault)?;
            Err(OpeningFault::Wrong(at, name_field(at)))
        }
    }
}

/// All that stands behind the version, up to the digest.
fn read_parts<S: Source>(
    alloc: Global,
    source: &mut S,
    place: &mut u64,
) -> Result<OpeningReference, OpeningFault>
    ensures { (zs : List ℕ) → S.left source.old ≡ Some zs → ReadsAs (parts (record { at = place.old; bytes = zs })) result place.new (S.left source.new) }
{
    let reference = report_name(alloc, source, place)?;
    report_end(source, place)?;
    Ok(reference)
}

/// The reference whose bytes these are, with this digest behind them.
fn read_body(alloc: Global, body: &[u8], digest: &[u8]) -> Result<OpeningReference, OpeningFault>
    ensures { IsReadAs (body_in body.now digest.now) result }
{
    let mut source = Noted::new(body);
    let mut place = 0;
    report_lead(&mut source, &mut place)?;
    if !is_sealed(body, digest) {
        return Err(OpeningFault::Damaged(body.len() as u64));
    }
    read_parts(alloc, &mut source, &mut place)
}

/// Reads a reference.
fn read_reported(alloc: Global, bytes: &[u8]) -> Result<OpeningReference, OpeningFault>
    ensures { IsReadAs (reference bytes.now) result }
{
    if bytes.len() < REFERENCE_LEN {
        return Err(OpeningFault::CutShort(bytes.len() as u64));
    }
    let end = bytes.len() - DIGEST_LEN;
    read_body(alloc, &bytes[..end], &bytes[end..])
}

/// Reads a reference, exactly: what is read has these bytes, and what is refused no reference has. A fault is the first one in the order of length, magic,
/// version, digest, and then the other fields as they stand.
pub fn read_reference(alloc: Global, bytes: &[u8]) -> Result<OpeningReference, OpeningFault>
    ensures ok { IfOk result (λ r. bytes.now ≡ reference_bytes r) }
    ensures err { IfErr result (λ fault. IsRefused fault bytes.now) }
{
    are_bytes(bytes);
    read_reported(alloc, bytes)
}
