//! Values, and those that a command over many keys is answered.

ghost use Rattle.std.specs.Prelude.{◌≡◌, ◌≤◌, ℕ, List, [], Option as Maybe, Some, None, Ok, true, IfOk, length, get_or};
ghost use Rattle.ep_base.specs.Devices.{FailsAsReported};
ghost use Rattle.ep_base.specs.declared.reply.Answer.TheVariants.{Replied};
ghost use Rattle.ep_base.specs.declared.reply.Reply.TheVariants.{Present};
ghost use Rattle.ep_bundle.specs.Reading.{and_then, field, is_read_failed, map_ok, many, Compares, Reads};
ghost use Rattle.ep_bundle.specs.Stages.{one_reported, reply_values, value, value_length};

use crate::bundle_fault::BundleFault;
use crate::bundle_field::BundleField;
use crate::fields::{field_u8, field_u16, field_u32, read_over};
use crate::room::Room;
use ep_base::{Answer, Reply, ReplyValues, Source, Value, Version, VersionKind};

/// How many bytes a value has: its length takes 2 bytes, or 4 in version 3.
fn read_value_len<S: Source>(
    source: &mut S,
    place: &mut u64,
    version: Version,
) -> Result<u32, BundleFault>
    ensures bytes { (zs : List ℕ) → S.left source.old ≡ Some zs → Reads (value_length version (record { at = place.old; bytes = zs })) result place.new (S.left source.new) }
    ensures reported { FailsAsReported is_read_failed result (S.has_failed source.old) (S.has_failed source.new) }
{
    match version.kind() {
        VersionKind::V1 | VersionKind::V2 => read_short_len(source, place),
        VersionKind::V3(_) => field_u32(source, place, BundleField::AnswerLength, 0, 65_535),
    }
}

/// The same in versions 1 and 2.
fn read_short_len<S: Source>(source: &mut S, place: &mut u64) -> Result<u32, BundleFault>
    ensures bytes { (zs : List ℕ) → S.left source.old ≡ Some zs → Reads (field BundleField.AnswerLength 2 0 1024 (record { at = place.old; bytes = zs })) result place.new (S.left source.new) }
    ensures reported { FailsAsReported is_read_failed result (S.has_failed source.old) (S.has_failed source.new) }
{
    match field_u16(source, place, BundleField::AnswerLength, 0, 1024) {
        Ok(len) => Ok(len as u32),
        Err(fault) => Err(fault),
    }
}

/// A value, with its length before it; by way of what the room has to spare.
pub(crate) fn read_value<S: Source>(
    source: &mut S,
    place: &mut u64,
    version: Version,
    room: &mut Room,
) -> Result<Value, BundleFault>
    ensures bytes { (zs : List ℕ) → S.left source.old ≡ Some zs → Reads (value version (record { at = place.old; bytes = zs })) result place.new (S.left source.new) }
    ensures reported { FailsAsReported is_read_failed result (S.has_failed source.old) (S.has_failed source.new) }
{
    let len = read_value_len(source, place, version)?;
    read_over(
        source,
        place,
        BundleField::AnswerValue,
        len as usize,
        &mut room.spare,
    )?;
    // The length is in range, so only memory can be refused.
    Value::new(room.alloc, &room.spare).map_err(|_| BundleFault::Memory)
}

/// What one key had: a value, or none; by way of what the room has to spare.
fn read_one_reported<S: Source>(
    source: &mut S,
    place: &mut u64,
    version: Version,
    room: &mut Room,
) -> Result<Option<Value>, BundleFault>
    ensures bytes { (zs : List ℕ) → S.left source.old ≡ Some zs → Reads (one_reported version (record { at = place.old; bytes = zs })) result place.new (S.left source.new) }
    ensures reported { FailsAsReported is_read_failed result (S.has_failed source.old) (S.has_failed source.new) }
{
    let code = field_u8(source, place, BundleField::ReportedMark, 0, 1)?;
    if code == 0 {
        return Ok(None);
    }
    let value = read_value(source, place, version, room)?;
    Ok(Some(value))
}

/// So many of them.
fn read_each_reported<S: Source>(
    source: &mut S,
    place: &mut u64,
    version: Version,
    count: u16,
    room: &mut Room,
) -> Result<Vec<Option<Value>>, BundleFault>
    ensures bytes { (zs : List ℕ) → S.left source.old ≡ Some zs → Reads (many (one_reported version) count [] (record { at = place.old; bytes = zs })) (map_ok (λ v. v.items) result) place.new (S.left source.new) }
    ensures count { IfOk result (λ v. length v.items ≡ count) }
    ensures reported { FailsAsReported is_read_failed result (S.has_failed source.old) (S.has_failed source.new) }
{
    let mut values = Vec::new(room.alloc);
    for _ in 0..count {
        let value = read_one_reported(source, place, version, room)?;
        values.push(value)?;
    }
    Ok(values)
}

/// What a command over many keys is answered, at most 16 values; by way of what the room has to spare.
pub(crate) fn read_reported<S: Source>(
    source: &mut S,
    place: &mut u64,
    version: Version,
    room: &mut Room,
) -> Result<ReplyValues, BundleFault>
    ensures bytes { (zs : List ℕ) → S.left source.old ≡ Some zs → Reads (reply_values version (record { at = place.old; bytes = zs })) result place.new (S.left source.new) }
    ensures reported { FailsAsReported is_read_failed result (S.has_failed source.old) (S.has_failed source.new) }
{
    let count = field_u16(source, place, BundleField::ReportedKeys, 0, 16)?;
    let values = read_each_reported(source, place, version, count, room)?;
    Ok(ReplyValues::of(values))
}

/// Whether the answer is the reply of this value.
fn reports(answer: &Answer, value: &[u8]) -> bool
    ensures yes { result ≡ true → answer.now ≡ Replied (Present value.now) }
    ensures other { answer.now ≡ Replied (Present value.now) → result ≡ true }
{
    match answer {
        Answer::Replied(Reply::Present(reported)) => reported.as_slice() == value,
        _ => false,
    }
}

/// Whether a value, which is read with its length before it, is the one that the answer has. It is read over what `spare` had.
pub(crate) fn read_same_value<S: Source>(
    source: &mut S,
    place: &mut u64,
    version: Version,
    answer: &Answer,
    spare: &mut Vec<u8>,
) -> Result<bool, BundleFault>
    ensures bytes { (zs : List ℕ) → S.left source.old ≡ Some zs → Compares answer.now (and_then (value version (record { at = place.old; bytes = zs })) (λ x l. Ok (Replied (Present x), l))) result place.new (S.left source.new) }
    ensures reported { FailsAsReported is_read_failed result (S.has_failed source.old) (S.has_failed source.new) }
{
    let len = read_value_len(source, place, version)?;
    read_over(source, place, BundleField::AnswerValue, len as usize, spare)?;
    let same = reports(answer, spare);
    Ok(same)
}

/// Whether the bytes are those of the value, if there is one.
fn is_value(option: &Option<Value>, bytes: &[u8]) -> bool
    ensures yes { result ≡ true → option.now ≡ Some bytes.now }
    ensures other { option.now ≡ Some bytes.now → result ≡ true }
{
    match option {
        Some(value) => value.as_slice() == bytes,
        None => false,
    }
}

/// Whether a value, which is read with its length before it, is this one. It is read over what `spare` had.
fn read_same_some<S: Source>(
    source: &mut S,
    place: &mut u64,
    version: Version,
    option: &Option<Value>,
    spare: &mut Vec<u8>,
) -> Result<bool, BundleFault>
    ensures bytes { (zs : List ℕ) → S.left source.old ≡ Some zs → Compares option.now (and_then (value version (record { at = place.old; bytes = zs })) (λ x l. Ok (Some x, l))) result place.new (S.left source.new) }
    ensures reported { FailsAsReported is_read_failed result (S.has_failed source.old) (S.has_failed source.new) }
{
    let len = read_value_len(source, place, version)?;
    read_over(source, place, BundleField::AnswerValue, len as usize, spare)?;
    let same = is_value(option, spare);
    Ok(same)
}

fn is_none(option: &Option<Value>) -> bool
    ensures yes { result ≡ true → option.now ≡ None }
    ensures other { option.now ≡ None → result ≡ true }
{
    option.is_none()
}

/// Whether what one key had, which is read, is this; `spare` is as for `read_same_value`.
fn read_same_one_reported<S: Source>(
    source: &mut S,
    place: &mut u64,
    version: Version,
    option: &Option<Value>,
    spare: &mut Vec<u8>,
) -> Result<bool, BundleFault>
    ensures bytes { (zs : List ℕ) → S.left source.old ≡ Some zs → Compares option.now (one_reported version (record { at = place.old; bytes = zs })) result place.new (S.left source.new) }
    ensures reported { FailsAsReported is_read_failed result (S.has_failed source.old) (S.has_failed source.new) }
{
    let code = field_u8(source, place, BundleField::ReportedMark, 0, 1)?;
    if code == 0 {
        let same = is_none(option);
        return Ok(same);
    }
    read_same_some(source, place, version, option, spare)
}

/// The value at this place; none where there is none.
fn value_at<'a>(
    values: &'a [Option<Value>],
    place: usize,
    none: &'a Option<Value>,
) -> &'a Option<Value>
    ensures { result.now ≡ get_or values.now place none.now }
{
    match values.get(place) {
        Some(value) => value,
        None => none,
    }
}

fn are_as_many(values: &[Option<Value>], count: u16) -> bool
    ensures yes { result ≡ true → length values.now ≡ count }
    ensures other { length values.now ≡ count → result ≡ true }
{
    values.len() == count as usize
}

/// Whether the answer's values, which are read, are these; `spare` is as for `read_same_value`.
pub(crate) fn read_same_reported<S: Source>(
    source: &mut S,
    place: &mut u64,
    version: Version,
    values: &[Option<Value>],
    spare: &mut Vec<u8>,
) -> Result<bool, BundleFault>
    ensures bytes { (zs : List ℕ) → S.left source.old ≡ Some zs → Compares values.now (reply_values version (record { at = place.old; bytes = zs })) result place.new (S.left source.new) }
    ensures reported { FailsAsReported is_read_failed result (S.has_failed source.old) (S.has_failed source.new) }
{
    let count = field_u16(source, place, BundleField::ReportedKeys, 0, 16)?;
    let mut same = are_as_many(values, count);
    let none = None;
    for index in 0..count {
        let this = value_at(values, index as usize, &none);
        let next = read_same_one_reported(source, place, version, this, spare)?;
        same = same & next;
    }
    Ok(same)
}
