//! The fields that all else is read by: numbers, the highest byte first, and runs of bytes.

ghost use Rattle.std.specs.Prelude.{◌≡◌, ◌≤◌, ℕ, List, Some, length, take, IfOk, OnOk, true};
ghost use Rattle.ep_base.specs.Devices.{FailsAsReported};
ghost use Rattle.ep_bundle.specs.Reading.{map_ok, field, number, run, is_read_failed, Reads};
ghost use Rattle.ep_bundle.specs.Filling.{Begun, Fills, FillsTo};

use crate::bad_field::BadField;
use crate::bundle_fault::BundleFault;
use crate::bundle_field::BundleField;
use crate::room::Room;
use crate::wanted::Wanted;
use byteorder::{BigEndian, ByteOrder};
use bytes::{Bytes, BytesMut};
use ep_base::{ReadFailed, Source};
use std::alloc::Global;

/// Fills the front of the buffer with the next bytes of the source, all of it unless the input ends before: how many they are.
#[inline(always)]
pub(crate) fn fill_to<S: Source>(source: &mut S, buf: &mut [u8]) -> Result<usize, ReadFailed>
    ensures bytes { (zs : List ℕ) → S.left source.old ≡ Some zs → IfOk result (λ n. FillsTo n zs buf.new (S.left source.new)) }
    ensures long { length buf.new ≡ length buf.old }
    ensures reported { FailsAsReported (λ _. true) result (S.has_failed source.old) (S.has_failed source.new) }
{
    if buf.is_empty() {
        return Ok(0);
    }
    let count = source.pull(buf)?;
    if count == 0 {
        return Ok(0);
    }
    if count < buf.len() {
        return fill_from(source, buf, count);
    }
    Ok(count)
}

/// Fills the buffer with the next bytes of the source; false where the input ends before it is full.
#[inline(always)]
pub(crate) fn fill<S: Source>(source: &mut S, buf: &mut [u8]) -> Result<bool, ReadFailed>
    ensures bytes { (zs : List ℕ) → S.left source.old ≡ Some zs → IfOk result (λ full. Fills full zs buf.new (S.left source.new)) }
    ensures long { length buf.new ≡ length buf.old }
    ensures reported { FailsAsReported (λ _. true) result (S.has_failed source.old) (S.has_failed source.new) }
{
    let count = fill_to(source, buf)?;
    if count < buf.len() {
        return Ok(false);
    }
    Ok(true)
}

/// Fills the rest of a buffer, of which so many bytes were taken: how many are then.
#[cold]
fn fill_from<S: Source>(source: &mut S, buf: &mut [u8], from: usize) -> Result<usize, ReadFailed>
    requires { from ≤ length buf.old }
    ensures bytes { (zs : List ℕ) → Begun zs (take from buf.old) (S.left source.old) → IfOk result (λ n. FillsTo n zs buf.new (S.left source.new)) }
    ensures long { length buf.new ≡ length buf.old }
    ensures reported { FailsAsReported (λ _. true) result (S.has_failed source.old) (S.has_failed source.new) }
{
    let mut at = from;
    while at < buf.len() {
        let count = source.pull(&mut buf[at..])?;
        if count == 0 {
            return Ok(at);
        }
        at += count;
    }
    Ok(at)
}

/// Takes as many bytes as the buffer is long.
#[inline(always)]
pub(crate) fn take<S: Source>(
    source: &mut S,
    place: &mut u64,
    name: BundleField,
    buf: &mut [u8],
) -> Result<(), BundleFault>
    ensures bytes { (zs : List ℕ) → S.left source.old ≡ Some zs → Reads (run name (length buf.old) (record { at = place.old; bytes = zs })) (map_ok (λ _. buf.new) result) place.new (S.left source.new) }
    ensures long { length buf.new ≡ length buf.old }
    ensures reported { FailsAsReported is_read_failed result (S.has_failed source.old) (S.has_failed source.new) }
{
    let len = buf.len() as u64;
    if !fill(source, buf)? {
        return Err(BundleFault::BadBundle(BadField {
            at: *place,
            name,
            len,
            wanted: Wanted::Whole,
        }));
    }
    *place = place.saturating_add(len);
    Ok(())
}

/// Takes a run of this many bytes.
pub fn read_run<S: Source>(
    alloc: Global,
    source: &mut S,
    place: &mut u64,
    name: BundleField,
    len: usize,
) -> Result<Vec<u8>, BundleFault>
    ensures bytes { (zs : List ℕ) → S.left source.old ≡ Some zs → Reads (run name len (record { at = place.old; bytes = zs })) (map_ok (λ v. v.items) result) place.new (S.left source.new) }
    ensures long { IfOk result (λ v. length v.items ≡ len) }
    ensures reported { FailsAsReported is_read_failed result (S.has_failed source.old) (S.has_failed source.new) }
{
    let mut bytes = vec![in alloc; 0; len]?;
    take(source, place, name, &mut bytes)?;
    Ok(bytes)
}

/// Takes a run of this many bytes in place of what the list had.
#[inline(always)]
pub(crate) fn read_over<S: Source>(
    source: &mut S,
    place: &mut u64,
    name: BundleField,
    len: usize,
    bytes: &mut Vec<u8>,
) -> Result<(), BundleFault>
    ensures bytes { (zs : List ℕ) → S.left source.old ≡ Some zs → Reads (run name len (record { at = place.old; bytes = zs })) (map_ok (λ _. bytes.new.items) result) place.new (S.left source.new) }
    ensures long { OnOk result (length bytes.new.items ≡ len) }
    ensures reported { FailsAsReported is_read_failed result (S.has_failed source.old) (S.has_failed source.new) }
{
    bytes.resize(len, 0)?;
    take(source, place, name, bytes)
}

/// Fills the block with a run of as many bytes, and takes it out.
fn take_block<S: Source>(
    source: &mut S,
    place: &mut u64,
    name: BundleField,
    block: &mut BytesMut,
) -> Result<Bytes, BundleFault>
    ensures bytes { (zs : List ℕ) → S.left source.old ≡ Some zs → Reads (run name (length block.old.items) (record { at = place.old; bytes = zs })) result place.new (S.left source.new) }
    ensures reported { FailsAsReported is_read_failed result (S.has_failed source.old) (S.has_failed source.new) }
{
    take(source, place, name, block.as_mut_slice())?;
    let run = block.freeze_to(block.len())?;
    Ok(run)
}

/// Takes a run of this many bytes, which shares the room's block with others.
#[inline(always)]
pub(crate) fn read_shared<S: Source>(
    source: &mut S,
    place: &mut u64,
    name: BundleField,
    len: usize,
    room: &mut Room,
) -> Result<Bytes, BundleFault>
    ensures bytes { (zs : List ℕ) → S.left source.old ≡ Some zs → Reads (run name len (record { at = place.old; bytes = zs })) result place.new (S.left source.new) }
    ensures reported { FailsAsReported is_read_failed result (S.has_failed source.old) (S.has_failed source.new) }
{
    room.open(len)?;
    take_block(source, place, name, &mut room.block)
}

#[inline(always)]
pub(crate) fn read_u8<S: Source>(
    source: &mut S,
    place: &mut u64,
    name: BundleField,
) -> Result<u8, BundleFault>
    ensures bytes { (zs : List ℕ) → S.left source.old ≡ Some zs → Reads (number name 1 (record { at = place.old; bytes = zs })) result place.new (S.left source.new) }
    ensures reported { FailsAsReported is_read_failed result (S.has_failed source.old) (S.has_failed source.new) }
{
    let mut bytes = [0; 1];
    take(source, place, name, &mut bytes)?;
    Ok(bytes[0])
}

#[inline(always)]
pub(crate) fn read_u16<S: Source>(
    source: &mut S,
    place: &mut u64,
    name: BundleField,
) -> Result<u16, BundleFault>
    ensures bytes { (zs : List ℕ) → S.left source.old ≡ Some zs → Reads (number name 2 (record { at = place.old; bytes = zs })) result place.new (S.left source.new) }
    ensures reported { FailsAsReported is_read_failed result (S.has_failed source.old) (S.has_failed source.new) }
{
    let mut bytes = [0; 2];
    take(source, place, name, &mut bytes)?;
    Ok(BigEndian::read_u16(&bytes))
}

#[inline(always)]
pub(crate) fn read_u32<S: Source>(
    source: &mut S,
    place: &mut u64,
    name: BundleField,
) -> Result<u32, BundleFault>
    ensures bytes { (zs : List ℕ) → S.left source.old ≡ Some zs → Reads (number name 4 (record { at = place.old; bytes = zs })) result place.new (S.left source.new) }
    ensures reported { FailsAsReported is_read_failed result (S.has_failed source.old) (S.has_failed source.new) }
{
    let mut bytes = [0; 4];
    take(source, place, name, &mut bytes)?;
    Ok(BigEndian::read_u32(&bytes))
}

/// A number of eight bytes.
#[inline(always)]
pub fn read_u64<S: Source>(
    source: &mut S,
    place: &mut u64,
    name: BundleField,
) -> Result<u64, BundleFault>
    ensures bytes { (zs : List ℕ) → S.left source.old ≡ Some zs → Reads (number name 8 (record { at = place.old; bytes = zs })) result place.new (S.left source.new) }
    ensures reported { FailsAsReported is_read_failed result (S.has_failed source.old) (S.has_failed source.new) }
{
    let mut bytes = [0; 8];
    take(source, place, name, &mut bytes)?;
    Ok(BigEndian::read_u64(&bytes))
}

/// A number of one byte, from `low` to `high`.
#[inline(always)]
pub fn field_u8<S: Source>(
    source: &mut S,
    place: &mut u64,
    name: BundleField,
    low: u8,
    high: u8,
) -> Result<u8, BundleFault>
    ensures bytes { (zs : List ℕ) → S.left source.old ≡ Some zs → Reads (field name 1 low high (record { at = place.old; bytes = zs })) result place.new (S.left source.new) }
    ensures range { IfOk result (λ x. (low ≤ x) × (x ≤ high)) }
    ensures reported { FailsAsReported is_read_failed result (S.has_failed source.old) (S.has_failed source.new) }
{
    let at = *place;
    let number = read_u8(source, place, name)?;
    if number < low || high < number {
        return Err(BundleFault::BadBundle(BadField {
            at,
            name,
            len: 1,
            wanted: Wanted::Range(low as u64, high as u64),
        }));
    }
    Ok(number)
}

/// A number of two bytes, from `low` to `high`.
#[inline(always)]
pub(crate) fn field_u16<S: Source>(
    source: &mut S,
    place: &mut u64,
    name: BundleField,
    low: u16,
    high: u16,
) -> Result<u16, BundleFault>
    ensures bytes { (zs : List ℕ) → S.left source.old ≡ Some zs → Reads (field name 2 low high (record { at = place.old; bytes = zs })) result place.new (S.left source.new) }
    ensures range { IfOk result (λ x. (low ≤ x) × (x ≤ high)) }
    ensures reported { FailsAsReported is_read_failed result (S.has_failed source.old) (S.has_failed source.new) }
{
    let at = *place;
    let number = read_u16(source, place, name)?;
    if number < low || high < number {
        return Err(BundleFault::BadBundle(BadField {
            at,
            name,
            len: 2,
            wanted: Wanted::Range(low as u64, high as u64),
        }));
    }
    Ok(number)
}

/// A number of four bytes, from `low` to `high`.
#[inline(always)]
pub fn field_u32<S: Source>(
    source: &mut S,
    place: &mut u64,
    name: BundleField,
    low: u32,
    high: u32,
) -> Result<u32, BundleFault>
    ensures bytes { (zs : List ℕ) → S.left source.old ≡ Some zs → Reads (field name 4 low high (record { at = place.old; bytes = zs })) result place.new (S.left source.new) }
    ensures range { IfOk result (λ x. (low ≤ x) × (x ≤ high)) }
    ensures reported { FailsAsReported is_read_failed result (S.has_failed source.old) (S.has_failed source.new) }
{
    let at = *place;
    let number = read_u32(source, place, name)?;
    if number < low || high < number {
        return Err(BundleFault::BadBundle(BadField {
            at,
            name,
            len: 4,
            wanted: Wanted::Range(low as u64, high as u64),
        }));
    }
    Ok(number)
}

/// A number of eight bytes, from `low` to `high`.
pub fn field_u64<S: Source>(
    source: &mut S,
    place: &mut u64,
    name: BundleField,
    low: u64,
    high: u64,
) -> Result<u64, BundleFault>
    ensures bytes { (zs : List ℕ) → S.left source.old ≡ Some zs → Reads (field name 8 low high (record { at = place.old; bytes = zs })) result place.new (S.left source.new) }
    ensures range { IfOk result (λ x. (low ≤ x) × (x ≤ high)) }
    ensures reported { FailsAsReported is_read_failed result (S.has_failed source.old) (S.has_failed source.new) }
{
    let at = *place;
    let number = read_u64(source, place, name)?;
    if number < low || high < number {
        return Err(BundleFault::BadBundle(BadField {
            at,
            name,
            len: 8,
            wanted: Wanted::Range(low, high),
        }));
    }
    Ok(number)
}
