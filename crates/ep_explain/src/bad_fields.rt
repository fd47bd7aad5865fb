//! Why a field of a bundle isn't allowed, in words.

use crate::numbers::number_of;
use crate::other_input::add_other_input;
use crate::reasons::Reasons;
use crate::region::region_of;
use crate::wording::Wording;
use ep_base::Op;
use ep_bundle::{
    BadField, BundleField, Wanted, body_lengths, early_lengths, first_lengths, second_lengths,
};
use std::alloc::Global;

/// How many bytes of a body are shown.
const SHOWN: usize = 60;

/// What the body of a cas may be.
const TWO_PARTS: &[u8] =
    b"what is expected, and then what is new, and nothing more: each a 0, or a 1, a length of four bytes to 65535, and so many bytes";

/// What the body of a command over many keys may be.
const ITEMS: &[u8] =
    b"a count of two bytes from 1 to 1024, then so many keys, rising, and nothing more: each a length from 1, flags (1 told, 2 guarded, 4 put, 8 del; at least one, not both put and del, and at most 16 told), the key, of a guard a 0, or a 1, a length of four bytes to 65535, and so many bytes, and of a put a length of four bytes to 65535, and so many bytes";

/// Adds why the reader refuses this field of the bytes.
pub(crate) fn add_field(alloc: Global, bytes: &[u8], field: &BadField, reasons: &mut Reasons) {
    if add_other_input(bytes, reasons) {
        return;
    }
    reasons.say_with(
        b"do: copy the bundle again from where it was made, or make it anew from the logs by `epaxos collect`",
        &[],
    );
    match field.wanted {
        Wanted::Nothing => add_left(reasons),
        Wanted::Whole => add_cut(alloc, bytes, field, reasons),
        _ => add_changed(alloc, bytes, field, reasons),
    }
}

/// The bundle is over, and bytes are left.
fn add_left(reasons: &mut Reasons) {
    reasons.say_with(
        b"likely: something was appended to the bundle, or a count before this place was changed",
        &[],
    );
    reasons.say_with(
        b"found: a byte or more after the last receipt, where the bundle is over",
        &[],
    );
}

/// The bytes end within the field.
fn add_cut(alloc: Global, bytes: &[u8], field: &BadField, reasons: &mut Reasons) {
    reasons.say_with(
        b"likely: the bundle was cut, or a length or a count before this place was changed",
        &[],
    );
    add_place(alloc, bytes, field, reasons);
    reasons.say_with(
        b"found: # of the field's # bytes, and then the end",
        &[(bytes.len() as u64).saturating_sub(field.at), field.len],
    );
}

/// The field isn't what it may be.
fn add_changed(alloc: Global, bytes: &[u8], field: &BadField, reasons: &mut Reasons) {
    reasons.say_with(
        b"likely: the bundle was changed here, or a length or a count before this place was",
        &[],
    );
    add_place(alloc, bytes, field, reasons);
    let mut line = reasons.line(b"allowed: ");
    say_allowed(&mut line, field);
    reasons.add(line);
    let mut line = reasons.line(b"found: ");
    say_found(&mut line, bytes, field);
    reasons.add(line);
}

/// The field, and where it is.
fn add_place(alloc: Global, bytes: &[u8], field: &BadField, reasons: &mut Reasons) {
    let is_late = bytes.get(4) == Some(&3);
    let mut line = reasons.line(b"field: ");
    line.say(name_of(field.name, is_late));
    line.say(b", in ");
    match region_of(alloc, bytes, field) {
        Some(region) => line.say_with(region.words, &region.numbers),
        None => reasons.cut(),
    }
    reasons.add(line);
}

/// Appends what the field may be.
fn say_allowed(line: &mut Wording, field: &BadField) {
    match field.wanted {
        Wanted::Whole | Wanted::Nothing | Wanted::Unsaid => {}
        Wanted::Range(_, _) if field.name == BundleField::Magic => line.say(b"EPJB"),
        Wanted::Range(low, high) => say_range(line, low, high),
        Wanted::ClusterSize => line.say(b"3, 5 or 7"),
        Wanted::LengthFor(op) => say_lengths(line, field.name, op),
        Wanted::OtherReplica(count) => line.say_with(
            b"0 to #, and not the journal's own replica",
            &[(count as u64).saturating_sub(1)],
        ),
        Wanted::OtherKey => line.say(b"another key than the first"),
        Wanted::Higher => line.say(
            b"a key above the one before it, by their bytes from the first one on",
        ),
        Wanted::BodyFor(Op::Cas) => line.say(TWO_PARTS),
        Wanted::BodyFor(Op::Tx) => line.say(ITEMS),
        Wanted::BodyFor(_) => line.say(b"any"),
    }
}

/// Appends the numbers from one to another.
fn say_range(line: &mut Wording, low: u64, high: u64) {
    if low == high {
        line.number(low);
    } else {
        line.say_with(b"# to #", &[low, high]);
    }
}

/// Appends how long this part of a command with this op may be.
fn say_lengths(line: &mut Wording, name: BundleField, op: Op) {
    let (low, high) = match name {
        BundleField::KeyLength => first_lengths(op),
        BundleField::SecondLength => second_lengths(op),
        BundleField::BodyLength => body_lengths(op),
        _ => early_lengths(op),
    };
    say_range(line, low as u64, high as u64);
}

/// Appends what the field is.
fn say_found(line: &mut Wording, bytes: &[u8], field: &BadField) {
    let start = field.at as usize;
    let end = start.saturating_add(field.len as usize);
    let found = bytes.get(start..end).unwrap_or(&[]);
    match field.wanted {
        Wanted::OtherKey | Wanted::Higher => line.front(found, found.len()),
        Wanted::BodyFor(_) => line.front(found, SHOWN),
        _ if field.name == BundleField::Magic => line.front(found, found.len()),
        _ => line.number(number_of(found)),
    }
}

/// The field's name, in a bundle of version 3 or of one before.
fn name_of(name: BundleField, is_late: bool) -> &'static [u8] {
    match name {
        BundleField::Kind if is_late => {
            b"event kind (1 propose, 2 handle, 3 give up, 4 recover, 5 execute, 6 propose and name the spared replica)"
        }
        BundleField::Op if is_late => {
            b"op (2 get, 3 put, 4 del, 5 swap, 6 cas, 7 ask, 8 act, 9 seal, 10 tx)"
        }
        BundleField::AnswerCode if is_late => {
            b"code of an answer (0 absent, 1 present, 2 lost, 3 closed, 4 ordered, 5 done, 6 undone)"
        }
        BundleField::SecondKey | BundleField::Body if !is_late => b"value or second key",
        name => plain_name(name),
    }
}

/// The field's name, where it is the same in all versions.
fn plain_name(name: BundleField) -> &'static [u8] {
    match name {
        BundleField::Magic => b"magic",
        BundleField::Version => b"version",
        BundleField::Replicas => b"number of replicas",
        BundleField::Generation => b"generation",
        BundleField::BaseStamp => b"stamp that the clocks go on from",
        BundleField::Receipts => b"number of receipts",
        BundleField::Keys => b"number of keys of the opening",
        BundleField::PairKeyLength | BundleField::KeyLength => b"length of the key",
        BundleField::PairValueLength => b"length of the value",
        BundleField::PairKey | BundleField::Key => b"key",
        BundleField::PairValue => b"value",
        BundleField::Journal => b"replica of the journal",
        BundleField::Entries => b"number of entries",
        BundleField::Kind => b"event kind (1 propose, 2 handle, 3 give up, 4 recover, 5 execute)",
        BundleField::Stamp => b"stamp",
        BundleField::Client => b"client",
        BundleField::Request => b"request",
        BundleField::Seen => b"seen stamp",
        BundleField::Spared => b"spared replica",
        BundleField::Op => b"op (2 get, 3 put, 4 del, 5 swap)",
        BundleField::SecondLength => b"length of the second key",
        BundleField::BodyLength => b"length of the body",
        BundleField::TextLength => b"length of the value or second key",
        BundleField::SecondKey => b"second key",
        BundleField::Body => b"body",
        BundleField::FrameLength => b"length of a frame",
        BundleField::Frame => b"frame",
        BundleField::Leader => b"instance's replica",
        BundleField::Number => b"instance's number",
        BundleField::Frames => b"number of frames out",
        BundleField::Executions => b"number of executions",
        BundleField::AnswerCode => b"code of an answer (0 absent, 1 present, 2 lost)",
        BundleField::AnswerLength => b"length of an answer's value",
        BundleField::AnswerValue => b"answer's value",
        BundleField::ReportedKeys => b"number of told keys",
        BundleField::ReportedMark => b"mark of a told key (0 absent, 1 present)",
        BundleField::Executor => b"replica that executed",
        BundleField::ExecutorEntry => b"entry that executed",
        BundleField::ExecutorStamp => b"stamp of the entry that executed",
        BundleField::Rest | BundleField::Other => b"",
    }
}
