//! Receipts.

ghost use Rattle.std.specs.Prelude.{◌≡◌, ℕ, List, [], Some};
ghost use Rattle.ep_base.specs.Devices.{FailsAsReported};
ghost use Rattle.ep_base.specs.Quorums.{size};
ghost use Rattle.ep_bundle.specs.Reading.{map_ok, many, is_read_failed, Reads};
ghost use Rattle.ep_bundle.specs.Stages.{receipt};

use crate::bundle_fault::BundleFault;
use crate::bundle_field::BundleField;
use crate::dialect::Dialect;
use crate::events::read_counted;
use crate::fields::{read_u32, read_u64};
use crate::parts::{read_answer, read_instance, read_replica};
use crate::room::Room;
use ep_base::{Size, Source, Version};
use ep_rules::Receipt;
use std::alloc::Global;

/// One receipt, in this version and cluster. `place` is the offset of its first byte, and then of the first byte after it.
pub fn read_receipt<S: Source>(
    alloc: Global,
    source: &mut S,
    place: &mut u64,
    version: Version,
    cluster: Size,
) -> Result<Receipt, BundleFault>
    ensures bytes { (zs : List ℕ) → S.left source.old ≡ Some zs → Reads (receipt version (size cluster) (record { at = place.old; bytes = zs })) result place.new (S.left source.new) }
    ensures reported { FailsAsReported is_read_failed result (S.has_failed source.old) (S.has_failed source.new) }
{
    let mut room = Room::new(alloc);
    let dialect = Dialect {
        version,
        size: cluster,
    };
    read_receipt_in(source, place, &dialect, &mut room)
}

/// As `read_receipt`, by way of what the room has to spare.
fn read_receipt_in<S: Source>(
    source: &mut S,
    place: &mut u64,
    dialect: &Dialect,
    room: &mut Room,
) -> Result<Receipt, BundleFault>
    ensures bytes { (zs : List ℕ) → S.left source.old ≡ Some zs → Reads (receipt dialect.now.version (size dialect.now.size) (record { at = place.old; bytes = zs })) result place.new (S.left source.new) }
    ensures reported { FailsAsReported is_read_failed result (S.has_failed source.old) (S.has_failed source.new) }
{
    let client = read_counted(source, place, BundleField::Client)?;
    let request = read_counted(source, place, BundleField::Request)?;
    let instance = read_instance(source, place, dialect.version, dialect.size)?;
    let seen = read_u64(source, place, BundleField::Seen)?;
    let replica = read_replica(source, place, BundleField::Executor, dialect.size)?;
    let entry = read_u32(source, place, BundleField::ExecutorEntry)?;
    let stamp = read_u64(source, place, BundleField::ExecutorStamp)?;
    let answer = read_answer(source, place, dialect.version, room)?;
    Ok(Receipt {
        client,
        request,
        instance,
        seen,
        replica,
        entry,
        stamp,
        answer,
    })
}

/// This many receipts.
pub(crate) fn read_receipts<S: Source>(
    alloc: Global,
    source: &mut S,
    place: &mut u64,
    dialect: &Dialect,
    count: u32,
) -> Result<Vec<Receipt>, BundleFault>
    ensures bytes { (zs : List ℕ) → S.left source.old ≡ Some zs → Reads (many (receipt dialect.now.version (size dialect.now.size)) count [] (record { at = place.old; bytes = zs })) (map_ok (λ v. v.items) result) place.new (S.left source.new) }
    ensures reported { FailsAsReported is_read_failed result (S.has_failed source.old) (S.has_failed source.new) }
{
    let mut room = Room::new(alloc);
    let mut receipts = Vec::new(alloc);
    for _ in 0..count {
        let receipt = read_receipt_in(source, place, dialect, &mut room)?;
        receipts.push(receipt)?;
    }
    Ok(receipts)
}
