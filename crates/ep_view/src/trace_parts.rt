//! The parts of trace events.

ghost use Rattle.std.specs.Prelude.{◌≡◌, ◌++◌, OnOk};
ghost use Rattle.ep_view.specs.TraceEvents.{begun, named, instant_text, arrow_id, process_text, first_event, generation_event, edition_event};

use crate::editions::generation_words;
use crate::messages::push_origin;
use ep_base::{ReplicaId, Version, VersionKind};
use ep_frame::Frame;
use ep_journal::{Entry, Opening};
use ep_json::push_string;
use ep_report::{Part, push_parts};
use std::alloc::AllocError;

/// Appends the beginning of an event of this replica's process, at this time.
#[tactic(auto, unfolding(crate::specs::TraceEvents::begun))]
pub(crate) fn push_begun(
    text: &mut Vec<u8>,
    start: &[u8],
    replica: ReplicaId,
    time: u64,
) -> Result<(), AllocError>
    ensures { OnOk result (text.new.items ≡ text.old.items ++ begun start.now replica time) }
{
    push_parts(
        text,
        &[
            Part::Text(b",\n{"),
            Part::Text(start),
            Part::Text(b",\"tid\":0,\"pid\":"),
            Part::Number(replica.index() as u64),
            Part::Text(b",\"ts\":"),
            Part::Number(time),
        ],
    )
}

/// Appends the name of an event.
#[tactic(auto, unfolding(crate::specs::TraceEvents::named))]
pub(crate) fn push_named(text: &mut Vec<u8>, words: &[u8]) -> Result<(), AllocError>
    ensures { OnOk result (text.new.items ≡ text.old.items ++ named words.now) }
{
    text.extend_from_slice(b",\"name\":")?;
    push_string(text, words)
}

/// Appends an instant, where something is so.
#[tactic(auto, unfolding(crate::specs::TraceEvents::instant_text))]
pub(crate) fn push_instant(
    text: &mut Vec<u8>,
    replica: ReplicaId,
    entry: &Entry,
    words: &[u8],
) -> Result<(), AllocError>
    ensures { OnOk result (text.new.items ≡ text.old.items ++ instant_text replica entry.now words.now) }
{
    push_begun(
        text,
        b"\"ph\":\"i\",\"s\":\"t\",\"cat\":\"instant\"",
        replica,
        entry.stamp.ticks(),
    )?;
    push_named(text, words)?;
    text.extend_from_slice(b"}")
}

/// Appends which arrow it is: of which frame, to which entry.
#[tactic(auto, unfolding(crate::specs::TraceEvents::arrow_id))]
pub(crate) fn push_arrow_id(
    text: &mut Vec<u8>,
    replica: ReplicaId,
    entry: &Entry,
    frame: &Frame,
) -> Result<(), AllocError>
    ensures { OnOk result (text.new.items ≡ text.old.items ++ arrow_id replica entry.now frame.now) }
{
    text.extend_from_slice(b",\"id\":\"")?;
    push_origin(text, frame)?;
    push_parts(
        text,
        &[
            Part::Text(b" by "),
            Part::Number(replica.index() as u64),
            Part::Text(b":"),
            Part::Number(entry.number as u64),
            Part::Text(b"\"}"),
        ],
    )
}

/// Appends the process of the replica of this number.
#[tactic(auto, unfolding(crate::specs::TraceEvents::process_text))]
pub(crate) fn push_process(text: &mut Vec<u8>, replica: u8) -> Result<(), AllocError>
    ensures { OnOk result (text.new.items ≡ text.old.items ++ process_text replica) }
{
    push_parts(
        text,
        &[
            Part::Text(b",\n{\"ph\":\"M\",\"name\":\"process_name\",\"pid\":"),
            Part::Number(replica as u64),
            Part::Text(b",\"tid\":0,\"args\":{\"name\":\"replica "),
            Part::Number(replica as u64),
            Part::Text(b"\"}}"),
        ],
    )
}

/// Appends the first event.
#[tactic(auto, unfolding(crate::specs::TraceEvents::first_event))]
pub(crate) fn push_first(text: &mut Vec<u8>) -> Result<(), AllocError>
    ensures { OnOk result (text.new.items ≡ text.old.items ++ first_event) }
{
    text.extend_from_slice(
        b"{\"traceEvents\":[\n{\"ph\":\"M\",\"name\":\"process_sort_index\",\"pid\":0,\"tid\":0,\"args\":{\"sort_index\":0}}",
    )
}

#[tactic(auto, unfolding(crate::specs::TraceEvents::generation_event))]
fn push_generation_event(
    text: &mut Vec<u8>,
    generation: u32,
    opening: &Opening,
) -> Result<(), AllocError>
    ensures { OnOk result (text.new.items ≡ text.old.items ++ generation_event generation opening.now) }
{
    let words = generation_words(*text.allocator(), generation, opening)?;
    text.extend_from_slice(
        b",\n{\"ph\":\"M\",\"name\":\"process_labels\",\"pid\":0,\"tid\":0,\"args\":{\"labels\":",
    )?;
    push_string(text, &words)?;
    text.extend_from_slice(b"}}")
}

/// Appends, in version 3, which generation it is and what it begins with.
pub(crate) fn push_edition_event(
    text: &mut Vec<u8>,
    version: Version,
    opening: &Opening,
) -> Result<(), AllocError>
    ensures { OnOk result (text.new.items ≡ text.old.items ++ edition_event version opening.now) }
{
    match version.kind() {
        VersionKind::V1 | VersionKind::V2 => Ok(()),
        VersionKind::V3(generation) => push_generation_event(text, generation, opening),
    }
}
