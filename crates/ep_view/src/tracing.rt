//! Files of trace events.

ghost use Rattle.std.specs.Prelude.{◌≡◌, ◌++◌, IfOk, OnOk};
ghost use Rattle.ep_base.specs.Quorums.{size};
ghost use Rattle.ep_journal.specs.Entries.{AreJournals};
ghost use Rattle.ep_view.specs.Handled.{is_in};
ghost use Rattle.ep_view.specs.TraceEvents.{entry_events, edition_event};
ghost use Rattle.ep_view.specs.TraceFiles.{processes, opening, file_text, IsTraceFile};
ghost use Rattle.ep_view.specs.Walks.{reported_at};

use crate::handled::Handled;
use crate::selection::Selection;
use crate::showing::schedule;
use crate::trace_entries::push_entry_events;
use crate::trace_parts::{push_edition_event, push_first, push_process};
use crate::walk::{Printer, push_kept};
use ep_base::ReplicaId;
use ep_journal::{Entry, Journals};
use std::alloc::{AllocError, Global};

/// Reports an entry as its trace events.
#[derive(Clone, Copy)]
struct TraceEvents<'a> {
    handled: &'a Handled,
}

impl<'a> Printer for TraceEvents<'a> {
    ghost reported = { λ p r e. entry_events (is_in p.handled.now) r e };

    fn push(
        &self,
        text: &mut Vec<u8>,
        replica: ReplicaId,
        entry: &Entry,
    ) -> Result<(), AllocError> {
        push_entry_events(text, self.handled, replica, entry)
    }
}

// Appends the processes of as many replicas.
fn push_processes(text: &mut Vec<u8>, count: u8) -> Result<(), AllocError>
    ensures { OnOk result (text.new.items ≡ text.old.items ++ processes count) }
{
    for replica in 0..count {
        push_process(text, replica)?;
    }
    Ok(())
}

#[tactic(auto, unfolding(crate::specs::TraceFiles::opening))]
fn push_opening(text: &mut Vec<u8>, count: u8) -> Result<(), AllocError>
    ensures { OnOk result (text.new.items ≡ text.old.items ++ opening count) }
{
    push_first(text)?;
    push_processes(text, count)
}

// Appends the file: the processes, and the events of the entries at these places.
fn push_file(
    text: &mut Vec<u8>,
    journals: &Journals,
    handled: &Handled,
    part: &Selection,
    places: &[(ReplicaId, u32)],
) -> Result<(), AllocError>
    requires { AreJournals journals.now }
    ensures { OnOk result (text.new.items ≡ text.old.items ++ file_text (size journals.now.faults) (edition_event journals.now.version journals.now.opening) (reported_at (entry_events (is_in handled.now)) part.now journals.now places.now)) }
{
    push_opening(text, journals.size().count())?;
    push_edition_event(text, journals.version(), journals.opening())?;
    push_kept(text, journals, part, &TraceEvents { handled }, places)?;
    text.extend_from_slice(b"\n]}\n")
}

/// The entries of the journals that the part keeps as trace events: a file of JSON in the Trace Event Format, which Perfetto and
/// chrome://tracing open. Each replica is a process, each entry a slice of a microsecond at its stamp, with its words among the slice's arguments.
/// An arrow leads from where each handled frame says that it was sent to where it is handled. Instants show where an instance is committed, and
/// where a frame is sent that no entry of any journal handles. Of journals of version 3 a label of the first process reports their generation
/// and what they begin with.
#[tactic(auto, using(crate::proofs::Traced::is_traced))]
pub fn trace_events(
    alloc: Global,
    journals: &Journals,
    part: &Selection,
) -> Result<Vec<u8>, AllocError>
    ensures { IfOk result (λ text. IsTraceFile journals.now part.now text.items) }
{
    journals.are_journals();
    let handled = Handled::of(alloc, journals)?;
    let places = schedule(alloc, journals)?;
    let mut text = Vec::new(alloc);
    push_file(&mut text, journals, &handled, part, &places)?;
    Ok(text)
}
