//! The fields of frames in words.

ghost use Rattle.std.specs.Prelude.{◌≡◌};
ghost use Rattle.ep_explain.specs.Fields.{instance_named};

use crate::numbers::number_of;
use crate::wording::Wording;
use ep_base::{InstanceId, ReplicaId};
use ep_frame::{FieldName, FrameField};

/// How many bytes of a key, a value or a body are reported.
const SHOWN: usize = 1024;

/// The names of the kinds of messages, by their codes from 1 on.
const KINDS: [&[u8]; 8] = [
    b"PreAccept",
    b"PreAcceptOK",
    b"Accept",
    b"AcceptOK",
    b"Commit",
    b"Prepare",
    b"PrepareOK",
    b"Nack",
];

/// The field's name.
pub(crate) fn words_of(name: FieldName) -> &'static [u8] {
    match name {
        FieldName::Magic => b"magic",
        FieldName::Version => b"version",
        FieldName::Kind => b"kind",
        FieldName::Sender => b"sender",
        FieldName::Receiver => b"receiver",
        FieldName::OutNumber => b"out number",
        FieldName::EntryNumber => b"entry number",
        FieldName::Stamp => b"stamp",
        FieldName::InstanceReplica => b"instance's replica",
        FieldName::InstanceNumber => b"instance's number",
        FieldName::BallotCounter => b"ballot's counter",
        FieldName::BallotReplica => b"ballot's replica",
        FieldName::Status => b"status",
        FieldName::OtherCounter => b"voted or promised ballot's counter",
        FieldName::OtherReplica => b"voted or promised ballot's replica",
        FieldName::Seq => b"seq",
        FieldName::Op => b"op",
        FieldName::KeyLength => b"length of the key",
        FieldName::TextLength => b"length of the value",
        FieldName::SecondKeyLength => b"length of the second key",
        FieldName::DependencyCount => b"number of dependencies",
        FieldName::Generation => b"generation",
        FieldName::BodyLength => b"length of the body",
        FieldName::Key => b"key",
        FieldName::Text => b"value or second key",
        FieldName::SecondKey => b"second key",
        FieldName::Body => b"body",
        FieldName::Dependency => b"dependency",
    }
}

/// Appends the value that the field has in these bytes, as far as there are any.
pub(crate) fn say_value(line: &mut Wording, field: FrameField, bytes: &[u8]) {
    let end = field.start.saturating_add(field.len).min(bytes.len());
    let bytes = bytes.get(field.start..end).unwrap_or(&[]);
    match field.name {
        FieldName::Kind => say_kind(line, number_of(bytes)),
        FieldName::Key | FieldName::Text | FieldName::SecondKey | FieldName::Body => line.front(
            bytes, SHOWN,
        ),
        FieldName::Dependency => say_dependency(line, bytes),
        _ => line.number(number_of(bytes)),
    }
}

/// Appends the name of the kind of this code, or else the code.
fn say_kind(line: &mut Wording, code: u64) {
    match KINDS.get((code as usize).wrapping_sub(1)) {
        Some(name) => line.say(name),
        None => line.number(code),
    }
}

/// The instance that these bytes name.
fn instance_of(bytes: &[u8]) -> Option<InstanceId>
    ensures { result ≡ instance_named bytes.now }
{
    let [replica, high, low] = bytes else {
        return None;
    };
    let replica = ReplicaId::new(*replica).ok()?;
    InstanceId::new(replica, u16::from_be_bytes([*high, *low])).ok()
}

fn say_dependency(line: &mut Wording, bytes: &[u8]) {
    match instance_of(bytes) {
        Some(instance) => line.instance(instance),
        None => line.say(b"none"),
    }
}
