//! Maps: keys in strictly rising order, each with what it has.

ghost use Rattle.std.specs.Prelude.{◌≡◌, ◌≤◌, ◌∷◌, ◌++◌, ℕ, List, [], Some, IfOk, OnOk, length, true};
ghost use Rattle.std.specs.FinMap.{entries as entries_in, is_sorted};
ghost use Rattle.ep_base.specs.Devices.{FailsAsReported};
ghost use Rattle.ep_exec.specs.Table.{key_cmp};
ghost use Rattle.ep_bundle.specs.Headers.{HoldsAt, contents, key_above, map_in, pair};
ghost use Rattle.ep_bundle.specs.Reading.{map_ok, is_read_failed, Reads, run};

use crate::bad_field::BadField;
use crate::bundle_fault::BundleFault;
use crate::bundle_field::BundleField;
use crate::fields::{field_u8, field_u32, read_run};
use crate::wanted::Wanted;
use ep_base::{Key, Source, Value, Version, VersionKind};
use ep_exec::{Contents, Listing};
use std::alloc::Global;

/// A key of this many bytes, 1 to 255; at fault where it doesn't stand above those of the map.
fn read_key<S: Source>(
    alloc: Global,
    source: &mut S,
    place: &mut u64,
    before: &Listing,
    len: u8,
) -> Result<Key, BundleFault>
    requires { 1 ≤ len }
    ensures bytes { (zs : List ℕ) → S.left source.old ≡ Some zs → Reads (key_above (entries_in before.now) len (record { at = place.old; bytes = zs })) result place.new (S.left source.new) }
    ensures above { IfOk result (λ k. (value : List ℕ) → is_sorted key_cmp (entries_in before.now ++ (k, value) ∷ []) ≡ true) }
    ensures reported { FailsAsReported is_read_failed result (S.has_failed source.old) (S.has_failed source.new) }
{
    let at = *place;
    let bytes = read_run(alloc, source, place, BundleField::PairKey, len as usize)?;
    // The length is in range, so only memory can be refused.
    let Ok(key) = Key::new(alloc, &bytes) else {
        return Err(BundleFault::Memory);
    };
    if !before.is_below(&key) {
        return Err(BundleFault::BadBundle(BadField {
            at,
            name: BundleField::PairKey,
            len: len as u64,
            wanted: Wanted::Higher,
        }));
    }
    Ok(key)
}

/// A value of this many bytes.
fn read_value_of<S: Source>(
    alloc: Global,
    source: &mut S,
    place: &mut u64,
    len: u32,
) -> Result<Value, BundleFault>
    requires { len ≤ 65535 }
    ensures bytes { (zs : List ℕ) → S.left source.old ≡ Some zs → Reads (run BundleField.PairValue len (record { at = place.old; bytes = zs })) result place.new (S.left source.new) }
    ensures reported { FailsAsReported is_read_failed result (S.has_failed source.old) (S.has_failed source.new) }
{
    let bytes = read_run(alloc, source, place, BundleField::PairValue, len as usize)?;
    Value::new(alloc, &bytes).map_err(|_| BundleFault::Memory)
}

/// The map's next key, with what it has.
fn read_pair<S: Source>(
    alloc: Global,
    source: &mut S,
    place: &mut u64,
    map: &mut Listing,
) -> Result<(), BundleFault>
    ensures bytes { (zs : List ℕ) → S.left source.old ≡ Some zs → (key value : List ℕ) → OnOk result (entries_in map.new ≡ entries_in map.old ++ (key, value) ∷ []) → Reads (pair (entries_in map.old) (record { at = place.old; bytes = zs })) (map_ok (λ _. (key, value)) result) place.new (S.left source.new) }
    ensures one { OnOk result ((key : List ℕ) × (value : List ℕ) × (entries_in map.new ≡ entries_in map.old ++ (key, value) ∷ [])) }
    ensures reported { FailsAsReported is_read_failed result (S.has_failed source.old) (S.has_failed source.new) }
{
    let key_len = field_u8(source, place, BundleField::PairKeyLength, 1, 255)?;
    let value_len = field_u32(source, place, BundleField::PairValueLength, 0, 65_535)?;
    let key = read_key(alloc, source, place, map, key_len)?;
    let value = read_value_of(alloc, source, place, value_len)?;
    // The key stands above the others, so only memory can be refused.
    match map.push(key, value) {
        Ok(()) => Ok(()),
        Err(_) => Err(BundleFault::Memory),
    }
}

/// A map of this many keys.
fn read_contents<S: Source>(
    alloc: Global,
    source: &mut S,
    place: &mut u64,
    count: u32,
) -> Result<Contents, BundleFault>
    ensures bytes { (zs : List ℕ) → S.left source.old ≡ Some zs → Reads (contents count (record { at = place.old; bytes = zs })) result place.new (S.left source.new) }
    ensures many { IfOk result (λ m. length (entries_in m) ≡ count) }
    ensures reported { FailsAsReported is_read_failed result (S.has_failed source.old) (S.has_failed source.new) }
{
    let mut map = Listing::new(alloc);
    for _ in 0..count {
        read_pair(alloc, source, place, &mut map)?;
    }
    Ok(Contents::of(alloc, map))
}

/// The map that a generation opens with, of at most 4,000,000,000 keys; versions 1 and 2 have none.
#[tactic(auto, using(crate::proofs::ReadHeaders::none_counted))]
pub fn read_map<S: Source>(
    alloc: Global,
    source: &mut S,
    place: &mut u64,
    version: Version,
) -> Result<Contents, BundleFault>
    ensures bytes { (zs : List ℕ) → S.left source.old ≡ Some zs → Reads (map_in version (record { at = place.old; bytes = zs })) result place.new (S.left source.new) }
    ensures holds { IfOk result (λ m. HoldsAt version m) }
    ensures few { IfOk result (λ m. length (entries_in m) ≤ 4000000000) }
    ensures reported { FailsAsReported is_read_failed result (S.has_failed source.old) (S.has_failed source.new) }
{
    match version.kind() {
        VersionKind::V1 | VersionKind::V2 => Ok(Contents::new(alloc)),
        VersionKind::V3(_) => read_counted_map(alloc, source, place),
    }
}

/// Of version 3: the count of the keys, and the map.
fn read_counted_map<S: Source>(
    alloc: Global,
    source: &mut S,
    place: &mut u64,
) -> Result<Contents, BundleFault>
    ensures bytes { (zs : List ℕ) (g : ℕ) → S.left source.old ≡ Some zs → Reads (map_in (VersionKind.V3 g) (record { at = place.old; bytes = zs })) result place.new (S.left source.new) }
    ensures few { IfOk result (λ m. length (entries_in m) ≤ 4000000000) }
    ensures reported { FailsAsReported is_read_failed result (S.has_failed source.old) (S.has_failed source.new) }
{
    let count = field_u32(source, place, BundleField::Keys, 0, 4_000_000_000)?;
    read_contents(alloc, source, place, count)
}
