//! Reading what stands before a bundle's journals.

ghost use Rattle.std.specs.Prelude.{◌≡◌, ◌≤◌, ℕ, List, Some, IfOk};
ghost use Rattle.ep_base.specs.Devices.{FailsAsReported};
ghost use Rattle.ep_journal.specs.Openings.{OpensIn};
ghost use Rattle.ep_base.specs.Versions.{version_of};
ghost use Rattle.ep_bundle.specs.Headers.{StartsAt, cluster, edition, header, header_of, late_edition};
ghost use Rattle.ep_bundle.specs.Reading.{is_read_failed, Reads};

use crate::bad_field::BadField;
use crate::bundle_fault::BundleFault;
use crate::bundle_field::BundleField;
use crate::bundle_header::BundleHeader;
use crate::fields::{field_u8, field_u32, field_u64, read_u8, read_u32};
use crate::pairs::read_map;
use crate::wanted::Wanted;
use ep_base::{Size, Source, Version};
use ep_journal::Opening;
use std::alloc::Global;

/// The number of replicas: 3, 5 or 7.
pub fn read_cluster<S: Source>(source: &mut S, place: &mut u64) -> Result<Size, BundleFault>
    ensures bytes { (zs : List ℕ) → S.left source.old ≡ Some zs → Reads (cluster (record { at = place.old; bytes = zs })) result place.new (S.left source.new) }
    ensures reported { FailsAsReported is_read_failed result (S.has_failed source.old) (S.has_failed source.new) }
{
    let at = *place;
    let count = read_u8(source, place, BundleField::Replicas)?;
    Size::new(count).map_err(|_| {
        BundleFault::BadBundle(BadField {
            at,
            name: BundleField::Replicas,
            len: 1,
            wanted: Wanted::ClusterSize,
        })
    })
}

/// Of version 3 the generation, and the stamp that the clocks go on from.
fn read_late_edition<S: Source>(
    source: &mut S,
    place: &mut u64,
) -> Result<(Version, u64), BundleFault>
    ensures bytes { (zs : List ℕ) → S.left source.old ≡ Some zs → Reads (late_edition (record { at = place.old; bytes = zs })) result place.new (S.left source.new) }
    ensures starts { IfOk result (λ e. StartsAt e.0 e.1) }
    ensures base_stamp { IfOk result (λ e. e.1 ≤ 281474976710655) }
    ensures reported { FailsAsReported is_read_failed result (S.has_failed source.old) (S.has_failed source.new) }
{
    let generation = field_u32(source, place, BundleField::Generation, 1, u32::MAX)?;
    let base_stamp = field_u64(
        source,
        place,
        BundleField::BaseStamp,
        0,
        281_474_976_710_655,
    )?;
    Ok((Version::from_valid(3, generation), base_stamp))
}

/// Version 1 or 2, by its number, whose clocks begin at 0.
fn early_edition(number: u8) -> (Version, u64)
    requires { (1 ≤ number) × (number ≤ 2) }
    ensures value { result ≡ (version_of number 0, 0) }
    ensures starts { StartsAt result.0 result.1 }
{
    (Version::from_valid(number, 0), 0)
}

/// The version of this number, 1 to 3; in version 3 its generation, and the stamp that the clocks go on from.
fn read_edition<S: Source>(
    source: &mut S,
    place: &mut u64,
    number: u8,
) -> Result<(Version, u64), BundleFault>
    requires { (1 ≤ number) × (number ≤ 3) }
    ensures bytes { (zs : List ℕ) → S.left source.old ≡ Some zs → Reads (edition number (record { at = place.old; bytes = zs })) result place.new (S.left source.new) }
    ensures starts { IfOk result (λ e. StartsAt e.0 e.1) }
    ensures base_stamp { IfOk result (λ e. e.1 ≤ 281474976710655) }
    ensures reported { FailsAsReported is_read_failed result (S.has_failed source.old) (S.has_failed source.new) }
{
    if number == 3 {
        return read_late_edition(source, place);
    }
    Ok(early_edition(number))
}

/// What stands before the journals: 10 bytes, or in version 3 26 bytes and the keys of the opening, each with what it has. `place` is the offset
/// of its first byte, and then of the first byte after it.
pub fn read_header<S: Source>(
    alloc: Global,
    source: &mut S,
    place: &mut u64,
) -> Result<BundleHeader, BundleFault>
    ensures bytes { (zs : List ℕ) → S.left source.old ≡ Some zs → Reads (header (record { at = place.old; bytes = zs })) result place.new (S.left source.new) }
    ensures opens { IfOk result (λ h. OpensIn h.version h.opening) }
    ensures reported { FailsAsReported is_read_failed result (S.has_failed source.old) (S.has_failed source.new) }
{
    read_header_of(alloc, source, place, 1, 3)
}

/// The header of a bundle whose version has these numbers.
pub(crate) fn read_header_of<S: Source>(
    alloc: Global,
    source: &mut S,
    place: &mut u64,
    low: u8,
    high: u8,
) -> Result<BundleHeader, BundleFault>
    requires { (1 ≤ low) × (high ≤ 3) }
    ensures bytes { (zs : List ℕ) → S.left source.old ≡ Some zs → Reads (header_of low high (record { at = place.old; bytes = zs })) result place.new (S.left source.new) }
    ensures opens { IfOk result (λ h. OpensIn h.version h.opening) }
    ensures reported { FailsAsReported is_read_failed result (S.has_failed source.old) (S.has_failed source.new) }
{
    field_u32(source, place, BundleField::Magic, 0x4550_4a42, 0x4550_4a42)?;
    let number = field_u8(source, place, BundleField::Version, low, high)?;
    let cluster = read_cluster(source, place)?;
    let edition = read_edition(source, place, number)?;
    let (version, base_stamp) = edition;
    let receipts = read_u32(source, place, BundleField::Receipts)?;
    let contents = read_map(alloc, source, place, version)?;
    // Both are in range, so it is made.
    let Ok(opening) = Opening::new(contents, base_stamp) else {
        return Err(BundleFault::Memory);
    };
    Ok(BundleHeader {
        version,
        cluster,
        opening,
        receipts,
    })
}
