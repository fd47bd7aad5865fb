//! The walk over the entries of journals that a part keeps, with a printer.

ghost use Rattle.std.specs.Prelude.{◌≡◌, ◌++◌, Some, ℕ, List, OnOk};
ghost use Rattle.ep_journal.specs.Entries.{AreJournals, entries_at};
ghost use Rattle.ep_journal.specs.declared.entry.Entry.{Entry as Taken};
ghost use Rattle.ep_audit.specs.Lookups.{entry_at};
ghost use Rattle.ep_view.specs.Walks.{reported_of, reported_at};

use crate::selection::Selection;
use ep_audit::entry_at;
use ep_base::ReplicaId;
use ep_journal::{Entry, Journals};
use std::alloc::AllocError;

/// Reports an entry in its own way.
pub(crate) trait Printer {
    /// What is reported of an entry of this replica.
    ghost reported: { Self → ℕ → Taken → List ℕ };

    /// Appends what is reported of an entry of this replica.
    fn push(&self, text: &mut Vec<u8>, replica: ReplicaId, entry: &Entry) -> Result<(), AllocError>
        ensures { OnOk result (text.new.items ≡ text.old.items ++ reported self.now replica entry.now) };
}

// Appends what is reported of an entry, if it is asked for.
fn push_one<P: Printer>(
    text: &mut Vec<u8>,
    part: &Selection,
    printer: &P,
    replica: ReplicaId,
    entry: &Entry,
) -> Result<(), AllocError>
    ensures { OnOk result (text.new.items ≡ text.old.items ++ reported_of (P.reported printer.now) part.now replica (Some entry.now)) }
{
    if !part.keeps(replica, entry) {
        return Ok(());
    }
    printer.push(text, replica, entry)
}

// Appends what is reported of the entry at this place, if it is asked for.
fn push_place<P: Printer>(
    text: &mut Vec<u8>,
    journals: &Journals,
    part: &Selection,
    printer: &P,
    place: &(ReplicaId, u32),
) -> Result<(), AllocError>
    requires { AreJournals journals.now }
    ensures { OnOk result (text.new.items ≡ text.old.items ++ reported_of (P.reported printer.now) part.now place.now.0 (entry_at (entries_at journals.now place.now.0) place.now.1)) }
{
    let (replica, number) = place;
    match entry_at(journals, *replica, *number) {
        None => Ok(()),
        Some(entry) => push_one(text, part, printer, *replica, entry),
    }
}

/// Appends what the printer says of the entries at these places that the part keeps, in this order.
pub(crate) fn push_kept<P: Printer>(
    text: &mut Vec<u8>,
    journals: &Journals,
    part: &Selection,
    printer: &P,
    places: &[(ReplicaId, u32)],
) -> Result<(), AllocError>
    requires { AreJournals journals.now }
    ensures { OnOk result (text.new.items ≡ text.old.items ++ reported_at (P.reported printer.now) part.now journals.now places.now) }
{
    for place in places {
        push_place(text, journals, part, printer, place)?;
    }
    Ok(())
}
