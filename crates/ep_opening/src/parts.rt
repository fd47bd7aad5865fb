//! The parts of a file, each fault reported by the name of its field.

ghost use Rattle.std.specs.Prelude.{◌≡◌, ◌≢◌, ℕ, List, Some, IfOk};
ghost use Rattle.ep_bundle.specs.Headers.{map_in};
ghost use Rattle.ep_bundle.specs.Journals.{ended};
ghost use Rattle.ep_bundle.specs.Reading.{Reads};
ghost use Rattle.ep_bundle.specs.declared.bundle_fault.BundleFault.TheVariants.{Memory, ReadFailed};
ghost use Rattle.ep_base.specs.declared.version_kind.VersionKind.TheVariants.{V3};
ghost use Rattle.ep_opening.specs.Reading.{executed, executed_field, front, front_field, lead, lead_field, place_of, file_reading, ReadsAs};
ghost use Rattle.ep_opening.specs.declared.opening_field.OpeningField.TheVariants.{Map, Rest};

use crate::front::Front;
use crate::opening_fault::OpeningFault;
use crate::opening_field::OpeningField;
use crate::stages::{read_executed, read_front, read_lead};
use ep_base::{Deps, Generation, Source, Version};
use ep_bundle::{BundleFault, read_end, read_map};
use ep_exec::Contents;
use std::alloc::{AllocError, Global};

/// Where the field at fault begins, unless memory was refused: a file is a slice, which doesn't fail to be read.
pub(crate) fn place_of(fault: BundleFault) -> Result<u64, AllocError>
    ensures { IfOk result (λ at. (fault ≢ Memory) × (fault ≢ ReadFailed) × (at ≡ place_of fault)) }
{
    match fault {
        BundleFault::Memory | BundleFault::ReadFailed => Err(AllocError),
        BundleFault::BadBundle(field) => Ok(field.at),
        BundleFault::NotARun(_, _) => Ok(0),
    }
}

/// The field of the lead that begins here.
pub(crate) fn lead_field(at: u64) -> OpeningField
    ensures { result ≡ lead_field at }
{
    if at < 4 {
        OpeningField::Magic
    } else {
        OpeningField::Version
    }
}

/// The field of the front that begins here.
fn front_field(at: u64) -> OpeningField
    ensures { result ≡ front_field at }
{
    if at < 6 {
        OpeningField::Replicas
    } else if at < 10 {
        OpeningField::Generation
    } else if at < 18 {
        OpeningField::Since
    } else if at < 19 {
        OpeningField::SealMark
    } else if at < 23 {
        OpeningField::SealLength
    } else {
        OpeningField::Seal
    }
}

/// The field that begins here, where those of the executed instances begin at `from`.
fn executed_field(from: u64, at: u64) -> OpeningField
    ensures { result ≡ executed_field from at }
{
    if at == from {
        OpeningField::Count
    } else {
        OpeningField::Instance
    }
}

/// What says that this is an opening file, of version 3.
pub(crate) fn report_lead<S: Source>(source: &mut S, place: &mut u64) -> Result<u8, OpeningFault>
    ensures { (zs : List ℕ) → S.left source.old ≡ Some zs → ReadsAs (file_reading lead_field (lead (record { at = place.old; bytes = zs }))) result place.new (S.left source.new) }
{
    match read_lead(source, place) {
        Ok(version) => Ok(version),
        Err(fault) => {
            let at = place_of(fault)?;
            Err(OpeningFault::Wrong(at, lead_field(at)))
        }
    }
}

/// What stands between the version and the map.
pub(crate) fn report_front<S: Source>(
    alloc: Global,
    source: &mut S,
    place: &mut u64,
) -> Result<Front, OpeningFault>
    ensures { (zs : List ℕ) → S.left source.old ≡ Some zs → ReadsAs (file_reading front_field (front (record { at = place.old; bytes = zs }))) result place.new (S.left source.new) }
{
    match read_front(alloc, source, place) {
        Ok(front) => Ok(front),
        Err(fault) => {
            let at = place_of(fault)?;
            Err(OpeningFault::Wrong(at, front_field(at)))
        }
    }
}

/// The map that the generation opens with.
fn read_contents<S: Source>(
    alloc: Global,
    source: &mut S,
    place: &mut u64,
    generation: Generation,
) -> Result<Contents, BundleFault>
    ensures { (zs : List ℕ) → S.left source.old ≡ Some zs → Reads (map_in (V3 generation) (record { at = place.old; bytes = zs })) result place.new (S.left source.new) }
{
    let version = Version::of_generation(generation);
    read_map(alloc, source, place, version)
}

/// The map.
pub(crate) fn report_map<S: Source>(
    alloc: Global,
    source: &mut S,
    place: &mut u64,
    generation: Generation,
) -> Result<Contents, OpeningFault>
    ensures { (zs : List ℕ) → S.left source.old ≡ Some zs → ReadsAs (file_reading (λ at. Map) (map_in (V3 generation) (record { at = place.old; bytes = zs }))) result place.new (S.left source.new) }
{
    match read_contents(alloc, source, place, generation) {
        Ok(contents) => Ok(contents),
        Err(fault) => {
            let at = place_of(fault)?;
            Err(OpeningFault::Wrong(at, OpeningField::Map))
        }
    }
}

/// The instances that the generation before executed.
pub(crate) fn report_executed<S: Source>(
    alloc: Global,
    source: &mut S,
    place: &mut u64,
    generation: Generation,
) -> Result<Deps, OpeningFault>
    ensures { (zs : List ℕ) → S.left source.old ≡ Some zs → ReadsAs (file_reading (executed_field place.old) (executed generation (record { at = place.old; bytes = zs }))) result place.new (S.left source.new) }
{
    let from = *place;
    match read_executed(alloc, source, place, generation) {
        Ok(executed) => Ok(executed),
        Err(fault) => {
            let at = place_of(fault)?;
            Err(OpeningFault::Wrong(at, executed_field(from, at)))
        }
    }
}

/// That nothing is left.
pub(crate) fn report_end<S: Source>(source: &mut S, place: &mut u64) -> Result<(), OpeningFault>
    ensures { (zs : List ℕ) → S.left source.old ≡ Some zs → ReadsAs (file_reading (λ at. Rest) (ended (record { at = place.old; bytes = zs }))) result place.new (S.left source.new) }
{
    match read_end(source, place) {
        Ok(()) => Ok(()),
        Err(fault) => {
            let at = place_of(fault)?;
            Err(OpeningFault::Wrong(at, OpeningField::Rest))
        }
    }
}
