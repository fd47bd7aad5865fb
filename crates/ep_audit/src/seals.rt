//! The seal that closed the map.

ghost use Rattle.std.specs.Prelude.{◌≡◌, false, IfOk, option_copied};
ghost use Rattle.ep_base.specs.Quorums.{size};
ghost use Rattle.ep_journal.specs.Entries.{entries_of, journals_of};
ghost use Rattle.ep_audit.specs.declared.happening.Happening.{Happening as Line};
ghost use Rattle.ep_rules.specs.Worlds.{In};
ghost use Rattle.ep_audit.specs.Closings.{operations_in, IsClosing, IsExecuted};
ghost use Rattle.ep_audit.specs.Sealed.{closing_by, first_sealing, is_among, least_below, least_in, lesser};

use crate::closing::Closing;
use crate::happening::Happening;
use ep_base::{Answer, CommandView, InstanceId, ReplicaId, Stamp, Value};
use ep_journal::{Entry, Journals};
use std::alloc::{AllocError, Global};

/// The first line of a seal.
fn first_sealing(history: &[Happening]) -> Option<&Happening>
    ensures { option_copied result ≡ first_sealing history.now }
{
    for happening in history {
        if happening.command.is_seal() {
            return Some(happening);
        }
    }
    None
}

/// Whether the instance is among these executions.
fn is_among(done: &[(InstanceId, Answer)], instance: InstanceId) -> bool
    ensures { result ≡ is_among instance done.now false }
{
    let mut found = false;
    for (other, _) in done {
        found = found || *other == instance;
    }
    found
}

/// The lesser stamp.
fn lesser(best: Option<Stamp>, stamp: Stamp) -> Option<Stamp>
    ensures { result ≡ lesser best stamp }
{
    match best {
        None => Some(stamp),
        Some(other) => {
            if stamp < other {
                Some(stamp)
            } else {
                Some(other)
            }
        }
    }
}

/// The best stamp so far, or a lesser one of an entry that executes the instance.
fn least_in(entries: &[Entry], instance: InstanceId, best: Option<Stamp>) -> Option<Stamp>
    ensures { result ≡ least_in instance (entries_of entries.now) best }
{
    let mut best = best;
    for entry in entries {
        if is_among(entry.done.as_slice(), instance) {
            best = lesser(best, entry.stamp);
        }
    }
    best
}

/// The least stamp of an entry that executes the instance.
fn least_stamp(journals: &Journals, instance: InstanceId) -> Option<Stamp>
    ensures { result ≡ least_below (size journals.now.faults) (journals_of journals.now) instance }
{
    let mut best = None;
    for replica in 0..journals.size().count() {
        let id = ReplicaId::new(replica).unwrap();
        best = least_in(journals.get(id).unwrap().entries(), instance, best);
    }
    best
}

/// The seal that this line is of, with a stamp; none where it is of another command.
fn closing_by(
    alloc: Global,
    happening: &Happening,
    stamp: Stamp,
) -> Result<Option<Closing>, AllocError>
    ensures { IfOk result (λ c. c ≡ closing_by happening.now stamp) }
{
    match happening.command.view() {
        CommandView::Seal(bytes) => Ok(Some(Closing {
            instance: happening.instance,
            value: Value::from_valid(alloc, bytes)?,
            stamp,
        })),
        CommandView::Noop
        | CommandView::Get(_)
        | CommandView::Put(_, _)
        | CommandView::Del(_)
        | CommandView::Swap(_, _)
        | CommandView::Cas(_, _, _)
        | CommandView::Opaque(_, _)
        | CommandView::Tx(_) => Ok(None),
    }
}

/// The first seal of the history, whose lines are of commands that were executed.
pub(crate) fn closing_of(
    alloc: Global,
    journals: &Journals,
    history: &[Happening],
) -> Result<Option<Closing>, AllocError>
    requires { (h : Line) → In h history.now → IsExecuted (journals_of journals.now) h.instance }
    ensures { IfOk result (λ c. IsClosing (journals_of journals.now) (operations_in history.now) c) }
{
    journals.are_local_runs();
    let Some(happening) = first_sealing(history) else {
        return Ok(None);
    };
    let stamp = least_stamp(journals, happening.instance).unwrap();
    closing_by(alloc, happening, stamp)
}
