//! The entries of journals, a line each.

ghost use Rattle.std.specs.Prelude.{◌≡◌, ◌++◌, [], cond, eqb, length, codes, decimal, IfOk, OnOk};
ghost use Rattle.ep_journal.specs.Entries.{AreJournals};
ghost use Rattle.ep_view.specs.Handled.{is_in, AreHandled};
ghost use Rattle.ep_view.specs.Shown.{entry_line, none_kept, or_none, IsInOrder, IsShown};
ghost use Rattle.ep_view.specs.Walks.{reported_at};

use crate::editions::push_edition;
use crate::handled::Handled;
use crate::lines::push_entry;
use crate::selection::Selection;
use crate::walk::{Printer, push_kept};
use ep_audit::Verdict;
use ep_base::ReplicaId;
use ep_journal::{Entry, Journals};
use ep_report::{Part, push_parts};
use std::alloc::{AllocError, Global};

/// All entries of the journals, by stamp and replica: each as its replica with its number.
pub fn schedule(alloc: Global, journals: &Journals) -> Result<Vec<(ReplicaId, u32)>, AllocError>
    ensures { IfOk result (λ v. IsInOrder journals.now v.items) }
{
    let verdict = Verdict::of(alloc, journals)?;
    let Verdict {
        schedule,
        committed,
        history,
        closing,
    } = verdict;
    drop(committed);
    drop(history);
    drop(closing);
    Ok(schedule)
}

/// Reports an entry as its line.
#[derive(Clone, Copy)]
struct Lines<'a> {
    handled: &'a Handled,
}

impl<'a> Printer for Lines<'a> {
    ghost reported = { λ p r e. entry_line (is_in p.handled.now) r e };

    fn push(
        &self,
        text: &mut Vec<u8>,
        replica: ReplicaId,
        entry: &Entry,
    ) -> Result<(), AllocError> {
        push_entry(text, self.handled, replica, entry)?;
        text.push(b'\n')?;
        Ok(())
    }
}

/// Appends that of so many entries none is kept, if there are any.
pub(crate) fn push_none_kept(text: &mut Vec<u8>, count: usize) -> Result<(), AllocError>
    ensures { OnOk result (text.new.items ≡ text.old.items ++ none_kept count) }
{
    if count == 0 {
        return Ok(());
    }
    push_parts(
        text,
        &[
            Part::Text(b"0 of "),
            Part::Number(count as u64),
            Part::Text(b" entries\n"),
        ],
    )
}

// Appends the lines of the entries at these places, or that none of them is kept.
#[tactic(auto, using(crate::proofs::AsShown::some_kept, crate::proofs::AsShown::none_is_kept))]
fn push_shown(
    text: &mut Vec<u8>,
    journals: &Journals,
    handled: &Handled,
    part: &Selection,
    places: &[(ReplicaId, u32)],
) -> Result<(), AllocError>
    requires { AreJournals journals.now }
    ensures { OnOk result (text.new.items ≡ text.old.items ++ or_none (length places.now) (reported_at (entry_line (is_in handled.now)) part.now journals.now places.now)) }
{
    let before = text.len();
    push_kept(text, journals, part, &Lines { handled }, places)?;
    if before < text.len() {
        return Ok(());
    }
    push_none_kept(text, places.len())
}

/// The entries of the journals that the part keeps, a line each, by stamp and then by replica: the event, what it sends to
/// whom, with `NEVER HANDLED` at each receiver whose frame no entry of any journal handles, and what it executes, with the
/// answers. Where it keeps none of them, a line that says how many there are. Of journals of version 3 a line stands first
/// that reports their generation and what they begin with.
pub fn show(alloc: Global, journals: &Journals, part: &Selection) -> Result<Vec<u8>, AllocError>
    ensures { IfOk result (λ text. IsShown journals.now part.now text.items) }
{
    journals.are_journals();
    let handled = Handled::of(alloc, journals)?;
    let text = shown_by(alloc, journals, &handled, part);
    drop(handled);
    text
}

// The entries of the journals that the part keeps, where these frames are handled.
#[tactic(auto, using(crate::proofs::AsShown::is_shown))]
fn shown_by(
    alloc: Global,
    journals: &Journals,
    handled: &Handled,
    part: &Selection,
) -> Result<Vec<u8>, AllocError>
    requires journals { AreJournals journals.now }
    requires handled { AreHandled journals.now handled.now }
    ensures { IfOk result (λ text. IsShown journals.now part.now text.items) }
{
    let places = schedule(alloc, journals)?;
    let mut text = Vec::new(alloc);
    push_edition(&mut text, journals.version(), journals.opening())?;
    push_shown(&mut text, journals, handled, part, &places)?;
    Ok(text)
}
