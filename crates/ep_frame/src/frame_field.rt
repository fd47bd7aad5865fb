//! Which field of a frame has the byte at a place.

ghost use Rattle.std.specs.Prelude.{◌≡◌, ◌≤◌, ◌<◌, ◌^◌, ◌↔◌, [], ◌∷◌, IsTrue, drop};
ghost use Rattle.ep_frame.specs.Fields.{header_at, number_at};
ghost use Rattle.ep_frame.specs.Places.{IsFieldAt, field_from, fields_in, later_fields, name_at_36};
ghost use Rattle.ep_frame.specs.declared.field_name.FieldName.TheVariants.{Body, SecondKey, Text};

use crate::field_name::FieldName;

/// A field of a frame.
#[derive(Clone, Copy, Debug, PartialEq, Eq)]
pub struct FrameField {
    /// Which one it is.
    pub name: FieldName,
    /// The place of its first byte.
    pub start: usize,
    /// How many bytes it has.
    pub len: usize,
}

/// The byte at the place; 0 where it isn't there.
#[tactic(auto, unfolding(crate::specs::Fields::number_at))]
fn byte_at(bytes: &[u8], place: usize) -> u8
    ensures { result ≡ number_at place 1 bytes.now }
{
    match bytes.get(place) {
        Some(byte) => *byte,
        None => 0,
    }
}

/// The number of two bytes from the place on.
#[tactic(auto, unfolding(crate::specs::Fields::number_at))]
fn two_at(bytes: &[u8], place: usize) -> usize
    requires { place < 48 }
    ensures value { result ≡ number_at place 2 bytes.now }
    ensures range { result < 2 ^ 16 }
{
    256 * byte_at(bytes, place) as usize + byte_at(bytes, place + 1) as usize
}

/// The number of four bytes from the place on.
#[tactic(auto, unfolding(crate::specs::Fields::number_at))]
fn four_at(bytes: &[u8], place: usize) -> usize
    requires { place < 46 }
    ensures value { result ≡ number_at place 4 bytes.now }
    ensures range { result < 2 ^ 32 }
{
    65_536 * two_at(bytes, place) + two_at(bytes, place + 2)
}

/// Whether the bytes say that they are of version 3.
fn is_late(bytes: &[u8]) -> bool
    ensures { IsTrue result ↔ (number_at 2 1 bytes.now ≡ 3) }
{
    byte_at(bytes, 2) == 3
}

fn field(name: FieldName, start: usize, len: usize) -> FrameField
    ensures { result ≡ record { name = name; start = start; len = len } }
{
    FrameField { name, start, len }
}

/// The dependency that has the byte at this place, where they begin at `start`.
fn dependency_at(start: usize, place: usize) -> FrameField
    requires { start ≤ place }
    ensures { result ≡ field_from start [] place }
{
    field(FieldName::Dependency, place - (place - start) % 3, 3)
}

/// The field at this place, from the text on, which has so many bytes.
fn from_text(start: usize, text: usize, place: usize) -> FrameField
    requires start { start < 2 ^ 9 }
    requires text { text < 2 ^ 16 }
    ensures { result ≡ field_from start ((Text, text) ∷ []) place }
{
    if place < start + text {
        field(FieldName::Text, start, text)
    } else {
        dependency_at(start + text, place)
    }
}

/// The field at this place, from the second key on, which has so many bytes, and the body so many.
fn from_second(start: usize, second: usize, body: usize, place: usize) -> FrameField
    requires start { start < 2 ^ 9 }
    requires second { second < 2 ^ 16 }
    requires body { body < 2 ^ 32 }
    ensures { result ≡ field_from start ((SecondKey, second) ∷ (Body, body) ∷ []) place }
{
    if place < start + second {
        field(FieldName::SecondKey, start, second)
    } else if place < start + second + body {
        field(FieldName::Body, start + second, body)
    } else {
        dependency_at(start + second + body, place)
    }
}

/// The field at this place, from the key on.
#[tactic(auto, using(crate::proofs::Headers::text_len_found))]
fn from_key(bytes: &[u8], start: usize, place: usize) -> FrameField
    requires { start ≤ 48 }
    ensures { result ≡ field_from start (later_fields (header_at bytes.now)) place }
{
    let key = byte_at(bytes, 35) as usize;
    if place < start + key {
        field(FieldName::Key, start, key)
    } else if is_late(bytes) {
        from_second(start + key, two_at(bytes, 36), four_at(bytes, 44), place)
    } else {
        from_text(start + key, two_at(bytes, 36), place)
    }
}

/// The field at this place, from those on that version 3 alone has.
fn from_late(bytes: &[u8], place: usize) -> FrameField
    ensures { result ≡ field_from 40 (drop 20 (fields_in bytes.now)) place }
{
    if !is_late(bytes) {
        from_key(bytes, 40, place)
    } else if place < 44 {
        field(FieldName::Generation, 40, 4)
    } else if place < 48 {
        field(FieldName::BodyLength, 44, 4)
    } else {
        from_key(bytes, 48, place)
    }
}

/// What the field at 36 is.
fn name_at_36(bytes: &[u8]) -> FieldName
    ensures { result ≡ name_at_36 (header_at bytes.now) }
{
    if is_late(bytes) {
        FieldName::SecondKeyLength
    } else {
        FieldName::TextLength
    }
}

/// The field at this place, from the sequence number on.
fn from_seq(bytes: &[u8], place: usize) -> FrameField
    ensures { result ≡ field_from 30 (drop 15 (fields_in bytes.now)) place }
{
    if place < 34 {
        field(FieldName::Seq, 30, 4)
    } else if place < 35 {
        field(FieldName::Op, 34, 1)
    } else if place < 36 {
        field(FieldName::KeyLength, 35, 1)
    } else if place < 38 {
        field(name_at_36(bytes), 36, 2)
    } else if place < 40 {
        field(FieldName::DependencyCount, 38, 2)
    } else {
        from_late(bytes, place)
    }
}

/// The field at this place, from the status on.
fn from_status(bytes: &[u8], place: usize) -> FrameField
    ensures { result ≡ field_from 26 (drop 12 (fields_in bytes.now)) place }
{
    if place < 27 {
        field(FieldName::Status, 26, 1)
    } else if place < 29 {
        field(FieldName::OtherCounter, 27, 2)
    } else if place < 30 {
        field(FieldName::OtherReplica, 29, 1)
    } else {
        from_seq(bytes, place)
    }
}

/// The field at this place, from the instance on.
fn from_instance(bytes: &[u8], place: usize) -> FrameField
    ensures { result ≡ field_from 20 (drop 8 (fields_in bytes.now)) place }
{
    if place < 21 {
        field(FieldName::InstanceReplica, 20, 1)
    } else if place < 23 {
        field(FieldName::InstanceNumber, 21, 2)
    } else if place < 25 {
        field(FieldName::BallotCounter, 23, 2)
    } else if place < 26 {
        field(FieldName::BallotReplica, 25, 1)
    } else {
        from_status(bytes, place)
    }
}

/// The field at this place, from the origin on.
fn from_origin(bytes: &[u8], place: usize) -> FrameField
    ensures { result ≡ field_from 5 (drop 4 (fields_in bytes.now)) place }
{
    if place < 6 {
        field(FieldName::Receiver, 5, 1)
    } else if place < 8 {
        field(FieldName::OutNumber, 6, 2)
    } else if place < 12 {
        field(FieldName::EntryNumber, 8, 4)
    } else if place < 20 {
        field(FieldName::Stamp, 12, 8)
    } else {
        from_instance(bytes, place)
    }
}

/// The field at this place, from the first one on.
fn from_magic(bytes: &[u8], place: usize) -> FrameField
    ensures { result ≡ field_from 0 (fields_in bytes.now) place }
{
    if place < 2 {
        field(FieldName::Magic, 0, 2)
    } else if place < 3 {
        field(FieldName::Version, 2, 1)
    } else if place < 4 {
        field(FieldName::Kind, 3, 1)
    } else if place < 5 {
        field(FieldName::Sender, 4, 1)
    } else {
        from_origin(bytes, place)
    }
}

/// The field that has the byte at this place, in a frame of the version and with the lengths that these bytes say. The
/// bytes may be no frame: those that aren't there are 0, and dependencies follow without end.
pub fn field_at(bytes: &[u8], place: usize) -> FrameField
    ensures { IsFieldAt bytes.now place result }
{
    from_magic(bytes, place)
}
