//! Reading a file's fields, in their order.

ghost use Rattle.std.specs.Prelude.{◌≡◌, ◌++◌, ◌∷◌, [], ℕ, List, Some, IfOk, eqb};
ghost use Rattle.ep_base.specs.Deps.{IsRising};
ghost use Rattle.ep_base.specs.Instances.{IsInstance};
ghost use Rattle.ep_base.specs.Quorums.{size};
ghost use Rattle.ep_base.specs.declared.version_kind.VersionKind.TheVariants.{V3};
ghost use Rattle.ep_bundle.specs.Reading.{field, Reads};
ghost use Rattle.ep_bundle.specs.Stages.{instance};
ghost use Rattle.ep_opening.specs.Reading.{above, executed, front, lead, mark_of, marked, most_of, rising, seal, seal_value, some_value};

use crate::front::Front;
use ep_base::{Deps, Generation, InstanceId, Size, Source, Value, Version};
use ep_bundle::{
    BadField, BundleFault, BundleField, Wanted, field_u8, field_u32, field_u64, read_cluster,
    read_instance, read_run,
};
use std::alloc::Global;

/// What says that this is an opening file, of version 3.
pub(crate) fn read_lead<S: Source>(source: &mut S, place: &mut u64) -> Result<u8, BundleFault>
    ensures { (zs : List ℕ) → S.left source.old ≡ Some zs → Reads (lead (record { at = place.old; bytes = zs })) result place.new (S.left source.new) }
{
    field_u32(source, place, BundleField::Other, 0x4550_4f50, 0x4550_4f50)?;
    field_u8(source, place, BundleField::Other, 3, 3)
}

/// The generation.
fn read_generation<S: Source>(source: &mut S, place: &mut u64) -> Result<Generation, BundleFault>
    ensures { (zs : List ℕ) → S.left source.old ≡ Some zs → Reads (field BundleField.Other 4 1 4294967295 (record { at = place.old; bytes = zs })) result place.new (S.left source.new) }
{
    let number = field_u32(source, place, BundleField::Other, 1, u32::MAX)?;
    // The number is in range, so the generation is made.
    Generation::new(number).map_err(|_| BundleFault::Memory)
}

/// A seal's value, with its length before it.
fn read_seal_value<S: Source>(
    alloc: Global,
    source: &mut S,
    place: &mut u64,
) -> Result<Value, BundleFault>
    ensures { (zs : List ℕ) → S.left source.old ≡ Some zs → Reads (seal_value (record { at = place.old; bytes = zs })) result place.new (S.left source.new) }
{
    let len = field_u32(source, place, BundleField::Other, 0, 65_535)?;
    let bytes = read_run(alloc, source, place, BundleField::Other, len as usize)?;
    // The length is in range, so only memory can be refused.
    Value::new(alloc, &bytes).map_err(|_| BundleFault::Memory)
}

/// Whether it is the first generation.
fn is_first(generation: Generation) -> bool
    ensures { result ≡ eqb generation 1 }
{
    generation.number() == 1
}

/// What is to say whether a seal began the generation.
fn mark_of(generation: Generation) -> u8
    ensures { result ≡ mark_of generation }
{
    if is_first(generation) { 0 } else { 1 }
}

/// What says whether a seal began the generation.
fn read_mark<S: Source>(
    source: &mut S,
    place: &mut u64,
    generation: Generation,
) -> Result<u8, BundleFault>
    ensures { (zs : List ℕ) → S.left source.old ≡ Some zs → Reads (field BundleField.Other 1 (mark_of generation) (mark_of generation) (record { at = place.old; bytes = zs })) result place.new (S.left source.new) }
{
    field_u8(
        source,
        place,
        BundleField::Other,
        mark_of(generation),
        mark_of(generation),
    )
}

/// The value of the seal that began a generation.
fn read_some<S: Source>(
    alloc: Global,
    source: &mut S,
    place: &mut u64,
) -> Result<Option<Value>, BundleFault>
    ensures { (zs : List ℕ) → S.left source.old ≡ Some zs → Reads (some_value (record { at = place.old; bytes = zs })) result place.new (S.left source.new) }
{
    let value = read_seal_value(alloc, source, place)?;
    Ok(Some(value))
}

/// The value of the seal that began the generation, where it isn't the first.
fn read_marked<S: Source>(
    alloc: Global,
    source: &mut S,
    place: &mut u64,
    generation: Generation,
) -> Result<Option<Value>, BundleFault>
    ensures { (zs : List ℕ) → S.left source.old ≡ Some zs → Reads (marked generation (record { at = place.old; bytes = zs })) result place.new (S.left source.new) }
{
    if is_first(generation) {
        return Ok(None);
    }
    read_some(alloc, source, place)
}

/// Whether a seal began the generation, and its value.
fn read_seal<S: Source>(
    alloc: Global,
    source: &mut S,
    place: &mut u64,
    generation: Generation,
) -> Result<Option<Value>, BundleFault>
    ensures { (zs : List ℕ) → S.left source.old ≡ Some zs → Reads (seal generation (record { at = place.old; bytes = zs })) result place.new (S.left source.new) }
{
    read_mark(source, place, generation)?;
    read_marked(alloc, source, place, generation)
}

/// What stands between the version and the map.
pub(crate) fn read_front<S: Source>(
    alloc: Global,
    source: &mut S,
    place: &mut u64,
) -> Result<Front, BundleFault>
    ensures { (zs : List ℕ) → S.left source.old ≡ Some zs → Reads (front (record { at = place.old; bytes = zs })) result place.new (S.left source.new) }
{
    let size = read_cluster(source, place)?;
    let generation = read_generation(source, place)?;
    let base_stamp = field_u64(source, place, BundleField::Other, 0, 281_474_976_710_655)?;
    let seal = read_seal(alloc, source, place, generation)?;
    Ok(Front {
        size,
        generation,
        base_stamp,
        seal,
    })
}

/// The largest cluster.
fn largest() -> Size
    ensures { size result ≡ 7 }
{
    Size::new(7).unwrap()
}

/// An instance of the generation, of any replica.
fn read_one<S: Source>(
    source: &mut S,
    place: &mut u64,
    generation: Generation,
) -> Result<InstanceId, BundleFault>
    ensures { (zs : List ℕ) → S.left source.old ≡ Some zs → Reads (instance (V3 generation) 7 (record { at = place.old; bytes = zs })) result place.new (S.left source.new) }
{
    let version = Version::of_generation(generation);
    read_instance(source, place, version, largest())
}

fn learn_instance(instance: InstanceId)
    ensures { IsInstance instance }
{
    let _number = instance.number();
}

fn learn_rising(executed: &Deps)
    ensures { IsRising executed.now }
{
    let _instances = executed.as_slice();
}

/// An instance that stands above these, which then have it too.
fn read_next<S: Source>(
    source: &mut S,
    place: &mut u64,
    generation: Generation,
    executed: &mut Deps,
) -> Result<InstanceId, BundleFault>
    ensures bytes { (zs : List ℕ) → S.left source.old ≡ Some zs → Reads (above generation executed.old (record { at = place.old; bytes = zs })) result place.new (S.left source.new) }
    ensures one { IfOk result (λ i. executed.new ≡ executed.old ++ i ∷ []) }
{
    let at = *place;
    learn_rising(executed);
    let instance = read_one(source, place, generation)?;
    learn_instance(instance);
    let pushed = executed.push_last(instance)?;
    if !pushed {
        return Err(BundleFault::BadBundle(BadField {
            at,
            name: BundleField::Other,
            len: 3,
            wanted: Wanted::Higher,
        }));
    }
    Ok(instance)
}

/// So many instances.
fn read_rising<S: Source>(
    alloc: Global,
    source: &mut S,
    place: &mut u64,
    generation: Generation,
    count: u32,
) -> Result<Deps, BundleFault>
    ensures { (zs : List ℕ) → S.left source.old ≡ Some zs → Reads (rising generation count [] (record { at = place.old; bytes = zs })) result place.new (S.left source.new) }
{
    let mut executed = Deps::new(alloc);
    for _ in 0..count {
        read_next(source, place, generation, &mut executed)?;
    }
    Ok(executed)
}

/// How many instances there may be.
fn most_of(generation: Generation) -> u32
    ensures { result ≡ most_of generation }
{
    if is_first(generation) { 0 } else { 63_000 }
}

/// How many instances there are.
fn read_count<S: Source>(
    source: &mut S,
    place: &mut u64,
    generation: Generation,
) -> Result<u32, BundleFault>
    ensures { (zs : List ℕ) → S.left source.old ≡ Some zs → Reads (field BundleField.Other 4 0 (most_of generation) (record { at = place.old; bytes = zs })) result place.new (S.left source.new) }
{
    field_u32(source, place, BundleField::Other, 0, most_of(generation))
}

/// The instances that the generation before executed.
pub(crate) fn read_executed<S: Source>(
    alloc: Global,
    source: &mut S,
    place: &mut u64,
    generation: Generation,
) -> Result<Deps, BundleFault>
    ensures { (zs : List ℕ) → S.left source.old ≡ Some zs → Reads (executed generation (record { at = place.old; bytes = zs })) result place.new (S.left source.new) }
{
    let count = read_count(source, place, generation)?;
    read_rising(alloc, source, place, generation, count)
}
