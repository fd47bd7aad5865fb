//! Frames in words, and how two of them differ.

ghost use Rattle.std.specs.Prelude.{◌≡◌, nat_eq};
ghost use Rattle.std.specs.List.{common_prefix_len};

use crate::frame_field::{say_value, words_of};
use crate::reasons::Reasons;
use crate::side::Side;
use crate::wording::Wording;
use bytes::Bytes;
use ep_frame::{Frame, FrameFault, FrameField, field_at};
use std::alloc::AllocError;

/// Appends the frame that the bytes are, or why they are none.
pub(crate) fn say_bytes(line: &mut Wording, bytes: &Bytes) {
    match bytes.clone() {
        Ok(shared) => {
            let read = Frame::read(shared);
            say_read(line, bytes.as_slice(), &read);
            drop(read);
        }
        Err(_) => line.note(Err(AllocError)),
    }
}

fn say_read(line: &mut Wording, bytes: &[u8], read: &Result<Frame, FrameFault>) {
    match read {
        Ok(frame) => line.frame(frame),
        Err(fault) => {
            line.say(b"no frame: ");
            say_fault(line, bytes, *fault);
        }
    }
}

/// Appends why bytes are no frame, of which some begin so: with their version, if they have one.
pub(crate) fn say_fault(line: &mut Wording, bytes: &[u8], fault: FrameFault) {
    line.text(fault.to_string(line.allocator()));
    if let FrameFault::Field(place) = fault {
        line.say(b" (");
        line.say(words_of(field_at(bytes, place as usize).name));
        line.say(b")");
    }
}

/// The first place at which the two differ; the length of the shorter one, where it is how the other one begins.
fn first_difference(one: &[u8], other: &[u8]) -> usize
    ensures { result ≡ common_prefix_len nat_eq one.now other.now }
{
    let common = one.len().min(other.len());
    for place in 0..common {
        if one[place] != other[place] {
            return place;
        }
    }
    common
}

/// Adds the first field in which two frames differ, and what each has there.
pub(crate) fn add_difference(one: &Side<'_>, other: &Side<'_>, reasons: &mut Reasons) {
    let field = field_at(one.bytes, first_difference(one.bytes, other.bytes));
    let mut line = reasons.line(b"first difference: ");
    line.say(words_of(field.name));
    line.say_with(b" (byte #), ", &[field.start as u64]);
    say_side(&mut line, field, one);
    line.say(b", ");
    say_side(&mut line, field, other);
    reasons.add(line);
}

fn say_side(line: &mut Wording, field: FrameField, side: &Side<'_>) {
    line.say(side.name);
    line.say(b" ");
    say_value(line, field, side.bytes);
}
