//! Instances and answers.

ghost use Rattle.std.specs.Prelude.{◌≡◌, ◌≤◌, ℕ, List, Option as Maybe, Some, true, IfOk};
ghost use Rattle.ep_base.specs.Devices.{FailsAsReported};
ghost use Rattle.ep_base.specs.Quorums.{size};
ghost use Rattle.ep_base.specs.Versions.{highest_in};
ghost use Rattle.ep_bundle.specs.Reading.{field, is_read_failed, Compares, Reads};
ghost use Rattle.ep_bundle.specs.Stages.{answer, highest_code, instance, plain_answer, replica, reply_by, reported_answer, reported_in};

use crate::bundle_fault::BundleFault;
use crate::bundle_field::BundleField;
use crate::fields::{field_u8, field_u16};
use crate::room::Room;
use crate::values::{read_reported, read_same_reported, read_same_value, read_value};
use ep_base::{
    Answer, InstanceId, ReplicaId, Reply, ReplyValues, Size, Source, Value, Version, VersionKind,
};

/// A replica of the cluster.
pub(crate) fn read_replica<S: Source>(
    source: &mut S,
    place: &mut u64,
    name: BundleField,
    cluster: Size,
) -> Result<ReplicaId, BundleFault>
    ensures bytes { (zs : List ℕ) → S.left source.old ≡ Some zs → Reads (replica name (size cluster) (record { at = place.old; bytes = zs })) result place.new (S.left source.new) }
    ensures reported { FailsAsReported is_read_failed result (S.has_failed source.old) (S.has_failed source.new) }
{
    let index = field_u8(source, place, name, 0, cluster.count() - 1)?;
    // The number is in range, so the replica is made.
    ReplicaId::new(index).map_err(|_| BundleFault::Memory)
}

/// The number of an instance of the version.
fn read_number<S: Source>(
    source: &mut S,
    place: &mut u64,
    version: Version,
) -> Result<u16, BundleFault>
    ensures bytes { (zs : List ℕ) → S.left source.old ≡ Some zs → Reads (field BundleField.Number 2 1 (highest_in version) (record { at = place.old; bytes = zs })) result place.new (S.left source.new) }
    ensures reported { FailsAsReported is_read_failed result (S.has_failed source.old) (S.has_failed source.new) }
{
    field_u16(
        source,
        place,
        BundleField::Number,
        1,
        version.highest_number(),
    )
}

/// An instance of the version that a replica of the cluster leads.
#[inline(always)]
pub fn read_instance<S: Source>(
    source: &mut S,
    place: &mut u64,
    version: Version,
    cluster: Size,
) -> Result<InstanceId, BundleFault>
    ensures bytes { (zs : List ℕ) → S.left source.old ≡ Some zs → Reads (instance version (size cluster) (record { at = place.old; bytes = zs })) result place.new (S.left source.new) }
    ensures reported { FailsAsReported is_read_failed result (S.has_failed source.old) (S.has_failed source.new) }
{
    let replica = read_replica(source, place, BundleField::Leader, cluster)?;
    let number = read_number(source, place, version)?;
    // The number is in range, so the instance is made.
    InstanceId::new(replica, number).map_err(|_| BundleFault::Memory)
}

/// The answer of a code that no value follows.
fn plain_answer(code: u8) -> Answer
    ensures { result ≡ plain_answer code }
{
    match code {
        0 => Answer::Replied(Reply::Absent),
        2 => Answer::Lost,
        3 => Answer::Replied(Reply::Closed),
        _ => Answer::Replied(Reply::Ordered),
    }
}

/// The answer of a code that values follow.
fn reported_answer(code: u8, reported: ReplyValues) -> Answer
    ensures { result ≡ reported_answer code reported }
{
    if code == 5 {
        Answer::Replied(Reply::Done(reported))
    } else {
        Answer::Replied(Reply::Undone(reported))
    }
}

/// What stands after an answer's code.
fn read_reply<S: Source>(
    source: &mut S,
    place: &mut u64,
    version: Version,
    code: u8,
    room: &mut Room,
) -> Result<Answer, BundleFault>
    ensures bytes { (zs : List ℕ) → S.left source.old ≡ Some zs → Reads (reply_by version code (record { at = place.old; bytes = zs })) result place.new (S.left source.new) }
    ensures reported { FailsAsReported is_read_failed result (S.has_failed source.old) (S.has_failed source.new) }
{
    if code == 1 {
        let value = read_value(source, place, version, room)?;
        return Ok(Answer::Replied(Reply::Present(value)));
    }
    if code < 5 {
        return Ok(plain_answer(code));
    }
    let reported = read_reported(source, place, version, room)?;
    Ok(reported_answer(code, reported))
}

/// The highest code of an answer: versions 1 and 2 have no closed maps, no commands of machines outside, and none over many keys.
fn highest_code(version: Version) -> u8
    ensures { result ≡ highest_code version }
{
    match version.kind() {
        VersionKind::V1 | VersionKind::V2 => 2,
        VersionKind::V3(_) => 6,
    }
}

/// The code of an answer.
fn read_code<S: Source>(
    source: &mut S,
    place: &mut u64,
    version: Version,
) -> Result<u8, BundleFault>
    ensures bytes { (zs : List ℕ) → S.left source.old ≡ Some zs → Reads (field BundleField.AnswerCode 1 0 (highest_code version) (record { at = place.old; bytes = zs })) result place.new (S.left source.new) }
    ensures range { IfOk result (λ x. x ≤ 6) }
    ensures reported { FailsAsReported is_read_failed result (S.has_failed source.old) (S.has_failed source.new) }
{
    field_u8(
        source,
        place,
        BundleField::AnswerCode,
        0,
        highest_code(version),
    )
}

/// An answer; by way of what the room has to spare.
pub(crate) fn read_answer<S: Source>(
    source: &mut S,
    place: &mut u64,
    version: Version,
    room: &mut Room,
) -> Result<Answer, BundleFault>
    ensures bytes { (zs : List ℕ) → S.left source.old ≡ Some zs → Reads (answer version (record { at = place.old; bytes = zs })) result place.new (S.left source.new) }
    ensures reported { FailsAsReported is_read_failed result (S.has_failed source.old) (S.has_failed source.new) }
{
    let code = read_code(source, place, version)?;
    read_reply(source, place, version, code, room)
}

/// The values that the answer has of many keys; none where it is another one.
fn reported_in(answer: &Answer) -> &[Option<Value>]
    ensures { result.now ≡ reported_in answer.now }
{
    match answer {
        Answer::Replied(Reply::Done(reported)) => reported.as_slice(),
        Answer::Replied(Reply::Undone(reported)) => reported.as_slice(),
        _ => &[],
    }
}

/// Whether the answer has this code, 5 or 6, whatever its values are.
fn has_code(answer: &Answer, code: u8) -> bool
    requires { (5 ≤ code) × (code ≤ 6) }
    ensures yes { result ≡ true → answer.now ≡ reported_answer code (reported_in answer.now) }
    ensures other { (os : List (Maybe (List ℕ))) → answer.now ≡ reported_answer code os → result ≡ true }
{
    match answer {
        Answer::Replied(Reply::Done(_)) => code == 5,
        Answer::Replied(Reply::Undone(_)) => code == 6,
        _ => false,
    }
}

/// Whether an answer, which is read, is this one; `spare` is as for `read_same_value`.
pub(crate) fn read_same_answer<S: Source>(
    source: &mut S,
    place: &mut u64,
    version: Version,
    reported: &Answer,
    spare: &mut Vec<u8>,
) -> Result<bool, BundleFault>
    ensures bytes { (zs : List ℕ) → S.left source.old ≡ Some zs → Compares reported.now (answer version (record { at = place.old; bytes = zs })) result place.new (S.left source.new) }
    ensures reported { FailsAsReported is_read_failed result (S.has_failed source.old) (S.has_failed source.new) }
{
    let code = read_code(source, place, version)?;
    if code == 1 {
        return read_same_value(source, place, version, reported, spare);
    }
    if code < 5 {
        let same = plain_answer(code).is_same(reported);
        return Ok(same);
    }
    let same = read_same_reported(source, place, version, reported_in(reported), spare)?;
    let here = has_code(reported, code);
    Ok(same & here)
}
