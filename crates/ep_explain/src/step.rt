//! What is wrong with an entry as its journal's next step.

ghost use Rattle.std.specs.Prelude.{◌≡◌, ◌↔◌, IfSome, IsNone, IsTrue, option_copied};
ghost use Rattle.std.specs.List.{common_prefix_len};
ghost use Rattle.std.specs.Str.{bytes_eq};
ghost use Rattle.ep_journal.specs.Leaving.{MarksNext};
ghost use Rattle.ep_explain.specs.Steps.{same_execution, same_frame};

use crate::frames::{add_difference, say_bytes, say_fault};
use crate::reasons::Reasons;
use crate::side::Side;
use bytes::Bytes;
use ep_base::{Answer, InstanceId, Stamp, Version};
use ep_bundle::{Draft, DraftEvent};
use ep_frame::Frame;
use ep_journal::{Event, Journal, Mark, StepFault};
use std::alloc::Global;

/// The most entries that a journal has.
pub(crate) const MOST_ENTRIES: usize = 4_294_967_295;

/// Adds what is wrong with the draft as the journal's next entry.
pub(crate) fn add_draft(alloc: Global, journal: &mut Journal, draft: Draft, reasons: &mut Reasons) {
    let Draft {
        stamp,
        event,
        frames,
        done,
    } = draft;
    if take(alloc, journal, event, stamp, reasons) {
        add_differences(journal, frames.as_slice(), done.as_slice(), reasons);
    }
    drop(frames);
    drop(done);
}

/// Takes the event as the journal's next one, with this stamp; says where that can't be.
fn take(
    alloc: Global,
    journal: &mut Journal,
    event: DraftEvent,
    stamp: Stamp,
    reasons: &mut Reasons,
) -> bool {
    match event.checked() {
        Err(fault) => {
            // (the bytes that are handled are taken for bytes of the journal's version)
            let mut line = reasons.line(b"cause: the bytes that are handled are no frame: ");
            say_fault(&mut line, &[0, 0, journal.version().number()], fault);
            reasons.add(line);
            false
        }
        Ok(event) => {
            add_event(journal.version(), &event, reasons);
            take_event(alloc, journal, event, stamp, reasons)
        }
    }
}

/// The event in words; and the generation of the frame that is handled, where it is another one than the bundle's.
fn add_event(version: Version, event: &Event, reasons: &mut Reasons) {
    let mut line = reasons.line(b"event: ");
    line.event(event);
    reasons.add(line);
    if let Event::Handle(frame) = event {
        add_generations(frame.version().generation(), version.generation(), reasons);
    }
}

fn add_generations(found: u32, own: u32, reasons: &mut Reasons) {
    if found != own && found != 0 && own != 0 {
        reasons.say_with(
            b"generations: the frame's is #, the bundle's is #",
            &[found as u64, own as u64],
        );
    }
}

fn take_event(
    alloc: Global,
    journal: &mut Journal,
    event: Event,
    stamp: Stamp,
    reasons: &mut Reasons,
) -> bool {
    let Some(mark) = next_mark(journal, stamp) else {
        drop(event);
        add_stamps(journal, stamp, reasons);
        return false;
    };
    match journal.take(alloc, event, Some(mark)) {
        Ok(()) => true,
        Err(fault) => {
            add_refused(fault, reasons);
            false
        }
    }
}

/// The number and the stamp of the journal's next entry; none where the stamp doesn't rise.
fn next_mark(journal: &Journal, stamp: Stamp) -> Option<Mark>
    ensures { IfSome result (λ mark. MarksNext journal.now.opening journal.now.entries mark) }
{
    let count = journal.entries().len();
    if stamp.ticks() <= journal.last_stamp() || count >= MOST_ENTRIES {
        return None;
    }
    Some(Mark {
        number: count as u32 + 1,
        stamp,
    })
}

/// The stamp doesn't rise.
fn add_stamps(journal: &Journal, stamp: Stamp, reasons: &mut Reasons) {
    let form = if journal.entries().is_empty() {
        b"cause: its stamp # isn't above the stamp that the clocks go on from, #".as_slice()
    } else {
        b"cause: its stamp # isn't above the stamp of the entry before it, #".as_slice()
    };
    reasons.say_with(form, &[stamp.ticks(), journal.last_stamp()]);
}

/// The event is refused.
fn add_refused(fault: StepFault, reasons: &mut Reasons) {
    let mut line = reasons.line(b"cause: the event is refused: ");
    line.text(fault.to_string(line.allocator()));
    match fault {
        StepFault::Memory => reasons.cut(),
        StepFault::NotCommitted(instance) => {
            line.say(b" ");
            line.instance(instance);
        }
        _ => {}
    }
    line.say(meaning_of(fault));
    reasons.add(line);
}

/// What the refusal says.
fn meaning_of(fault: StepFault) -> &'static [u8] {
    match fault {
        StepFault::Memory => b": there is no memory",
        StepFault::OtherVersion => b": the frame is of another version than the bundle",
        StepFault::OtherGeneration => b": the frame is of another generation than the bundle",
        StepFault::OutOfRange => b": a replica or an instance in it isn't one of the cluster",
        StepFault::NotMine => b": the frame is for another replica",
        StepFault::StampFull => b": the stamp or the entry's number is past its limit",
        StepFault::SpaceFull => {
            b": the replica has no number left for the command: in version 3 the last ten are for seals"
        }
        StepFault::SeqExhausted => b": the command's seq would pass its limit",
        StepFault::NotLeading => b": there is nothing to give up",
        StepFault::TooFewAnswers => b": too few replicas have answered",
        StepFault::AlreadyCommitted => b": there is nothing to recover",
        StepFault::BallotsExhausted => b": the ballot's counter would pass its limit",
        StepFault::NotCommitted(_) => b": it has to be committed here before the execution",
    }
}

/// The step, which is the journal's last entry, sends other frames, or executes otherwise.
fn add_differences(
    journal: &Journal,
    frames: &[Bytes],
    done: &[(InstanceId, Answer)],
    reasons: &mut Reasons,
) {
    if let Some(step) = journal.entries().last() {
        let expected = step.frames.as_slice();
        match first_other_frame(expected, frames) {
            Some(place) => add_frames(expected, frames, place, reasons),
            None => add_executions(step.done.as_slice(), done, reasons),
        }
    }
}

/// The first place at which the frames differ.
fn first_other_frame(expected: &[Frame], found: &[Bytes]) -> Option<usize>
    ensures none { IsNone result ↔ (expected.now ≡ found.now) }
    ensures place { IfSome result (λ place. place ≡ common_prefix_len bytes_eq expected.now found.now) }
{
    for place in 0..expected.len().max(found.len()) {
        if !has_frame(expected.get(place), found.get(place)) {
            return Some(place);
        }
    }
    None
}

/// Whether both are the same frame.
fn has_frame(expected: Option<&Frame>, found: Option<&Bytes>) -> bool
    ensures { result ≡ same_frame (option_copied expected.entry) (option_copied found.entry) }
{
    match (expected, found) {
        (Some(expected), Some(found)) => expected.as_slice() == found.as_slice(),
        _ => false,
    }
}

/// The frames differ, first at this place.
fn add_frames(expected: &[Frame], found: &[Bytes], place: usize, reasons: &mut Reasons) {
    reasons.say_with(
        b"cause: its frames aren't those of the step: expected #, found #; the first that differs is at place #, counted from 0",
        &[expected.len() as u64, found.len() as u64, place as u64],
    );
    let (expected, found) = (expected.get(place), found.get(place));
    add_expected(expected, reasons);
    add_found(found, reasons);
    if let Some(expected) = expected {
        add_field(expected, found, reasons);
    }
}

/// The frame that the step sends.
fn add_expected(expected: Option<&Frame>, reasons: &mut Reasons) {
    let mut line = reasons.line(b"expected: ");
    match expected {
        Some(frame) => line.frame(frame),
        None => line.say(b"none"),
    }
    reasons.add(line);
}

/// The bytes that the entry sends.
fn add_found(found: Option<&Bytes>, reasons: &mut Reasons) {
    let mut line = reasons.line(b"found: ");
    match found {
        Some(bytes) => say_bytes(&mut line, bytes),
        None => line.say(b"none"),
    }
    reasons.add(line);
}

/// The field in which the two frames differ, if there are two.
fn add_field(expected: &Frame, found: Option<&Bytes>, reasons: &mut Reasons) {
    if let Some(found) = found {
        let one = Side {
            name: b"expected",
            bytes: expected.as_slice(),
        };
        let other = Side {
            name: b"found",
            bytes: found.as_slice(),
        };
        add_difference(&one, &other, reasons);
    }
}

/// The executions differ.
fn add_executions(
    expected: &[(InstanceId, Answer)],
    found: &[(InstanceId, Answer)],
    reasons: &mut Reasons,
) {
    let place = first_other_execution(expected, found);
    reasons.say_with(
        b"cause: its executions aren't those of the step: expected #, found #; the first that differs is at place #, counted from 0",
        &[expected.len() as u64, found.len() as u64, place as u64],
    );
    add_execution(b"expected: ", expected.get(place), reasons);
    add_execution(b"found: ", found.get(place), reasons);
}

/// The first place at which the executions differ.
fn first_other_execution(expected: &[(InstanceId, Answer)], found: &[(InstanceId, Answer)]) -> usize
    ensures { result ≡ common_prefix_len same_execution expected.now found.now }
{
    let common = expected.len().min(found.len());
    for place in 0..common {
        if !is_same_execution(&expected[place], &found[place]) {
            return place;
        }
    }
    common
}

fn is_same_execution(one: &(InstanceId, Answer), other: &(InstanceId, Answer)) -> bool
    ensures test { result ≡ same_execution one.now other.now }
    ensures same { IsTrue result ↔ (one.now ≡ other.now) }
{
    one.0 == other.0 && one.1.is_same(&other.1)
}

/// An execution, under this name.
fn add_execution(name: &[u8], execution: Option<&(InstanceId, Answer)>, reasons: &mut Reasons) {
    let mut line = reasons.line(name);
    match execution {
        Some((instance, answer)) => {
            line.instance(*instance);
            line.say(b" ");
            line.answer(answer);
        }
        None => line.say(b"none"),
    }
    reasons.add(line);
}
