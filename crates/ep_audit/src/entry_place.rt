//! The next entries of journals.

ghost use Rattle.std.specs.Prelude.{◌≡◌, ◌<◌, drop, length, option_copied};
ghost use Rattle.ep_base.specs.Quorums.{size};
ghost use Rattle.ep_journal.specs.Entries.{journals_of};
ghost use Rattle.ep_audit.specs.Turns.{first_turn, earlier, first_taken, least_of, taken, takes};

use ep_base::{ReplicaId, Stamp};
use ep_journal::{Entry, Journals};

/// An entry of a replica's journal, by its number and stamp.
#[derive(Clone, Copy)]
pub(crate) struct EntryPlace {
    pub replica: ReplicaId,
    pub number: u32,
    pub stamp: Stamp,
}

/// Whether a merge takes the entry: a merge of all takes any, another one only an entry that executes something.
fn takes(all: bool, entry: &Entry) -> bool
    ensures { result ≡ takes all entry.now.done }
{
    all || !entry.done.as_slice().is_empty()
}

/// The first of the entries that the merge takes.
fn first_taken(all: bool, entries: &[Entry]) -> Option<&Entry>
    ensures { option_copied result ≡ first_taken all entries.now }
{
    for entry in entries {
        if takes(all, entry) {
            return Some(entry);
        }
    }
    None
}

/// The first entry of the replica's journal, after so many, that the merge takes.
pub(crate) fn first(
    all: bool,
    journals: &Journals,
    replica: ReplicaId,
    done: usize,
) -> Option<EntryPlace>
    requires { replica < size journals.now.faults }
    ensures { result ≡ first_turn replica (taken all (drop done (journals_of journals.now replica))) }
{
    let Some(journal) = journals.get(replica) else {
        return None;
    };
    let Some(rest) = journal.entries().get(done..) else {
        return None;
    };
    let Some(entry) = first_taken(all, rest) else {
        return None;
    };
    Some(EntryPlace {
        replica,
        number: entry.number,
        stamp: entry.stamp,
    })
}

/// The earlier one; the first one where both have the same stamp.
fn earlier(best: Option<EntryPlace>, turn: Option<EntryPlace>) -> Option<EntryPlace>
    ensures { result ≡ earlier best turn }
{
    match (best, turn) {
        (None, _) => turn,
        (Some(_), None) => best,
        (Some(a), Some(b)) => { if b.stamp < a.stamp { turn } else { best } }
    }
}

/// The least of these, by stamp and replica: one for each replica, none where its entries are done.
pub(crate) fn least(turns: &[Option<EntryPlace>]) -> Option<EntryPlace>
    ensures { result ≡ least_of (length turns.now) turns.now }
{
    let mut best = None;
    for place in 0..turns.len() {
        best = earlier(best, turns[place]);
    }
    best
}
