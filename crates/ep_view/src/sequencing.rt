//! Sequence diagrams for Mermaid.

ghost use Rattle.std.specs.Prelude.{◌≡◌, ◌++◌, IfOk, OnOk};
ghost use Rattle.ep_base.specs.Quorums.{size};
ghost use Rattle.ep_journal.specs.Entries.{AreJournals};
ghost use Rattle.ep_view.specs.Handled.{is_in};
ghost use Rattle.ep_view.specs.Sequences.{participant_text, participants, sequence_start, edition_note, entry_lines, sequence_text, IsSequence};
ghost use Rattle.ep_view.specs.Walks.{reported_at};

use crate::editions::generation_words;
use crate::handled::Handled;
use crate::labels::push_mermaid_words;
use crate::selection::Selection;
use crate::sequence_lines::{push_entry_lines, push_note_start};
use crate::showing::schedule;
use crate::walk::{Printer, push_kept};
use ep_base::{ReplicaId, Version, VersionKind};
use ep_journal::{Entry, Journals, Opening};
use ep_report::{Part, push_parts};
use std::alloc::{AllocError, Global};

/// Reports an entry as its lines in a sequence diagram.
#[derive(Clone, Copy)]
struct Arrows<'a> {
    handled: &'a Handled,
}

impl<'a> Printer for Arrows<'a> {
    ghost reported = { λ p r e. entry_lines (is_in p.handled.now) r e };

    fn push(
        &self,
        text: &mut Vec<u8>,
        replica: ReplicaId,
        entry: &Entry,
    ) -> Result<(), AllocError> {
        push_entry_lines(text, self.handled, replica, entry)
    }
}

#[tactic(auto, unfolding(crate::specs::Sequences::participant_text))]
fn push_participant(text: &mut Vec<u8>, replica: u8) -> Result<(), AllocError>
    ensures { OnOk result (text.new.items ≡ text.old.items ++ participant_text replica) }
{
    push_parts(
        text,
        &[
            Part::Text(b"  participant r"),
            Part::Number(replica as u64),
            Part::Text(b" as replica "),
            Part::Number(replica as u64),
            Part::Text(b"\n"),
        ],
    )
}

// Appends the lines of as many replicas.
fn push_participants(text: &mut Vec<u8>, count: u8) -> Result<(), AllocError>
    ensures { OnOk result (text.new.items ≡ text.old.items ++ participants count) }
{
    for replica in 0..count {
        push_participant(text, replica)?;
    }
    Ok(())
}

#[tactic(auto, unfolding(crate::specs::Sequences::sequence_start))]
fn push_sequence_start(text: &mut Vec<u8>, count: u8) -> Result<(), AllocError>
    ensures { OnOk result (text.new.items ≡ text.old.items ++ sequence_start count) }
{
    text.extend_from_slice(b"sequenceDiagram\n")?;
    push_participants(text, count)
}

// Appends, in version 3, a note of the generation and of what it begins with.
fn push_edition_note(
    text: &mut Vec<u8>,
    version: Version,
    opening: &Opening,
) -> Result<(), AllocError>
    ensures { OnOk result (text.new.items ≡ text.old.items ++ edition_note version opening.now) }
{
    match version.kind() {
        VersionKind::V1 | VersionKind::V2 => Ok(()),
        VersionKind::V3(generation) => {
            let words = generation_words(*text.allocator(), generation, opening)?;
            push_note_start(text, 0)?;
            push_mermaid_words(text, &words)?;
            text.extend_from_slice(b"\n")
        }
    }
}

// Appends the diagram: the replicas, and the lines of the entries at these places that are asked for.
fn push_sequence(
    text: &mut Vec<u8>,
    journals: &Journals,
    handled: &Handled,
    part: &Selection,
    places: &[(ReplicaId, u32)],
) -> Result<(), AllocError>
    requires { AreJournals journals.now }
    ensures { OnOk result (text.new.items ≡ text.old.items ++ sequence_text (size journals.now.faults) (edition_note journals.now.version journals.now.opening) (reported_at (entry_lines (is_in handled.now)) part.now journals.now places.now)) }
{
    push_sequence_start(text, journals.size().count())?;
    push_edition_note(text, journals.version(), journals.opening())?;
    push_kept(text, journals, part, &Arrows { handled }, places)
}

/// The entries of the journals that the part keeps as a sequence diagram for Mermaid: a participant a replica, and by stamp and then by replica a
/// note for each proposal, recovery and execution, with the answers, an arrow from its sender for each frame that is handled, with the kind and
/// the instance of its message, and an arrow with a cross for each frame that is sent and that no entry of any journal handles. Of journals of
/// version 3 the first note reports their generation and what they begin with. Mermaid reads the words of commands and answers as they are (`are_labels`).
#[tactic(auto, using(crate::proofs::Sequenced::is_sequence))]
pub fn sequence(alloc: Global, journals: &Journals, part: &Selection) -> Result<Vec<u8>, AllocError>
    ensures { IfOk result (λ text. IsSequence journals.now part.now text.items) }
{
    journals.are_journals();
    let handled = Handled::of(alloc, journals)?;
    let places = schedule(alloc, journals)?;
    let mut text = Vec::new(alloc);
    push_sequence(&mut text, journals, &handled, part, &places)?;
    Ok(text)
}
