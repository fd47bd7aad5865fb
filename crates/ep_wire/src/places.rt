//! Which field of a request stands at a place.

ghost use Rattle.std.specs.Prelude.{◌≡◌, ◌<◌, ◌+◌, ◌^◌, ◌∷◌, []};
ghost use Rattle.ep_wire.specs.Requests.{byte_at, early_fields, field_in, fields_of, four_at, handled_fields, instance_fields, is_bare, late_fields, late_fields_in, proposal_fields, read_fields, read_fields_in, ready_fields, sparing_fields, two_at};
ghost use Rattle.ep_wire.specs.declared.request_field.RequestField.TheVariants.{Key};

use crate::malformed::Malformed;
use crate::request_field::RequestField;
use ep_base::{Version, VersionKind};

/// A byte of a body, 0 where it isn't there.
pub(crate) fn byte_at(body: &[u8], place: usize) -> u8
    ensures { result ≡ byte_at body.now place }
{
    match body.get(place) {
        Some(byte) => *byte,
        None => 0,
    }
}

/// Two bytes of a body as a number.
fn two_at(body: &[u8], place: usize) -> u64
    requires { place < 2 ^ 32 }
    ensures value { result ≡ two_at body.now place }
    ensures range { result < 2 ^ 16 }
{
    256 * u64::from(byte_at(body, place)) + u64::from(byte_at(body, place + 1))
}

/// Four bytes of a body as a number.
fn four_at(body: &[u8], place: usize) -> u64
    requires { place < 2 ^ 31 }
    ensures value { result ≡ four_at body.now place }
    ensures range { result < 2 ^ 32 }
{
    65_536 * two_at(body, place) + two_at(body, place + 2)
}

/// The field at this place of a proposal of version 1 or 2, where key and value have so many bytes.
fn early_field(key: u64, value: u64, at: u64) -> RequestField
    requires key { key < 2 ^ 8 }
    requires value { value < 2 ^ 16 }
    ensures { result ≡ field_in (early_fields key value) at }
{
    if at < 9 {
        RequestField::Client
    } else if at < 13 {
        RequestField::ClientRequest
    } else if at < 21 {
        RequestField::Seen
    } else if at < 22 {
        RequestField::Op
    } else if at < 23 {
        RequestField::KeyLength
    } else if at < 25 {
        RequestField::ValueLength
    } else if at < 25 + key {
        RequestField::Key
    } else if at < 25 + key + value {
        RequestField::Value
    } else {
        RequestField::Rest
    }
}

/// The field at this place of a proposal of version 3 that begins here, where both keys and the body have so many bytes.
fn late_field(from: u64, first: u64, second: u64, body: u64, at: u64) -> RequestField
    requires from { from < 2 ^ 8 }
    requires first { first < 2 ^ 8 }
    requires second { second < 2 ^ 8 }
    requires body { body < 2 ^ 32 }
    ensures { result ≡ field_in (late_fields from first second body) at }
{
    if at < from + 4 {
        RequestField::Client
    } else if at < from + 8 {
        RequestField::ClientRequest
    } else if at < from + 16 {
        RequestField::Seen
    } else if at < from + 17 {
        RequestField::Op
    } else if at < from + 18 {
        RequestField::FirstLength
    } else if at < from + 19 {
        RequestField::SecondLength
    } else if at < from + 23 {
        RequestField::BodyLength
    } else if at < from + 23 + first {
        RequestField::FirstKey
    } else if at < from + 23 + first + second {
        RequestField::SecondKey
    } else if at < from + 23 + first + second + body {
        RequestField::Body
    } else {
        RequestField::Rest
    }
}

/// The field at this place of a proposal of version 1 or 2, with this body.
fn early_field_in(body: &[u8], at: u64) -> RequestField
    ensures { result ≡ field_in (early_fields (byte_at body.now 17) (two_at body.now 18)) at }
{
    early_field(u64::from(byte_at(body, 17)), two_at(body, 18), at)
}

/// The field at this place of a proposal of version 3, which begins here.
fn late_field_in(from: u8, body: &[u8], at: u64) -> RequestField
    ensures { result ≡ field_in (late_fields_in from body.now) at }
{
    let begin = from as u64;
    let start = from as usize;
    let first = u64::from(byte_at(body, start + 12));
    let second = u64::from(byte_at(body, start + 13));
    late_field(begin, first, second, four_at(body, start + 14), at)
}

/// The field at this place of a proposal of this version.
fn proposal_field(version: Version, body: &[u8], at: u64) -> RequestField
    ensures { result ≡ field_in (proposal_fields version body.now) at }
{
    match version.kind() {
        VersionKind::V1 | VersionKind::V2 => early_field_in(body, at),
        VersionKind::V3(_) => late_field_in(5, body, at),
    }
}

/// The field at this place of a proposal that names the replica that it spares.
fn sparing_field(body: &[u8], at: u64) -> RequestField
    ensures { result ≡ field_in (sparing_fields body.now) at }
{
    if at < 6 {
        RequestField::Spared
    } else {
        late_field_in(6, body, at)
    }
}

/// The field at this place of a request that names an instance.
fn instance_field(at: u64) -> RequestField
    ensures { result ≡ field_in instance_fields at }
{
    if at < 6 {
        RequestField::Replica
    } else if at < 8 {
        RequestField::Number
    } else {
        RequestField::Rest
    }
}

/// The field at this place of a request that has a key alone.
fn key_field(at: u64) -> RequestField
    ensures { result ≡ field_in ((Key, 260) ∷ []) at }
{
    if at < 260 {
        RequestField::Key
    } else {
        RequestField::Rest
    }
}

/// The field at this place of a request for what there is to report.
fn ready_field(at: u64) -> RequestField
    ensures { result ≡ field_in ready_fields at }
{
    if at < 9 {
        RequestField::After
    } else if at < 10 {
        RequestField::Most
    } else {
        RequestField::Rest
    }
}

/// The field at this place of a request that names a replica.
fn handled_field(at: u64) -> RequestField
    ensures { result ≡ field_in handled_fields at }
{
    if at < 6 {
        RequestField::Replica
    } else {
        RequestField::Rest
    }
}

/// The field at this place of a read, where the key has so many bytes, and so many instances are named.
fn read_field(key: u64, count: u64, at: u64) -> RequestField
    requires key { key < 2 ^ 8 }
    requires count { count < 2 ^ 32 }
    ensures { result ≡ field_in (read_fields key count) at }
{
    if at < 6 {
        RequestField::KeyLength
    } else if at < 6 + key {
        RequestField::Key
    } else if at < 10 + key {
        RequestField::Count
    } else if at < 10 + key + 3 * count {
        RequestField::Found
    } else {
        RequestField::Rest
    }
}

/// The field at this place of a read with this body.
fn read_field_in(body: &[u8], at: u64) -> RequestField
    ensures { result ≡ field_in (read_fields_in body.now) at }
{
    let key = byte_at(body, 0);
    let count = four_at(body, 1 + usize::from(key));
    read_field(u64::from(key), count, at)
}

/// Whether a request of this kind, 1 to 12, has no body.
fn is_bare(kind: u8) -> bool
    ensures { result ≡ is_bare kind }
{
    kind == 6 || 10 <= kind
}

/// The field at this place of a request of this kind with this body.
fn field_at(version: Version, kind: u8, body: &[u8], at: u64) -> RequestField
    ensures { result ≡ field_in (fields_of version kind body.now) at }
{
    if kind == 1 {
        return proposal_field(version, body, at);
    }
    if kind == 7 || kind == 16 {
        return key_field(at);
    }
    if kind == 13 {
        return ready_field(at);
    }
    if kind == 14 {
        return sparing_field(body, at);
    }
    if kind == 15 {
        return handled_field(at);
    }
    if kind == 17 {
        return read_field_in(body, at);
    }
    if is_bare(kind) {
        RequestField::Rest
    } else {
        instance_field(at)
    }
}

/// That a request of this kind with this body is malformed at this place.
pub(crate) fn malformed_at(version: Version, kind: u8, body: &[u8], at: u64) -> Malformed
    ensures { result ≡ record { field = field_in (fields_of version kind body.now) at; at = at } }
{
    Malformed {
        field: field_at(version, kind, body, at),
        at,
    }
}
