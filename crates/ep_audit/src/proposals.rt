//! Where instances are proposed.

ghost use Rattle.std.specs.Prelude.{◌≡◌, ◌≤◌, ◌<◌, ◌^◌, ℕ, [], cond, eqb, IfOk, OnOk, length, option_copied, slice_get, slice_index_or as get_or};
ghost use Rattle.ep_base.specs.Instances.{leader_of, number_of, highest_number};
ghost use Rattle.ep_base.specs.Quorums.{size};
ghost use Rattle.ep_journal.specs.Entries.{AreJournals, entries_at};
ghost use Rattle.ep_audit.specs.Claims.{proposal_of};
ghost use Rattle.ep_audit.specs.Lookups.{proposed};
ghost use Rattle.ep_audit.specs.Proposing.{AreRows, IsRow, IsMarked};

use crate::lookups::{entries_of, entry_in, proposed};
use ep_base::{InstanceId, ReplicaId};
use ep_journal::{Entry, Journals};
use std::alloc::{AllocError, Global};
use std::marker::Model;

/// For each number, the place of the entry that proposes this instance of a replica, or how many entries there are; of numbers behind these, there
/// is none.
#[derive(Drop)]
struct Row {
    places: Vec<usize>,
}

impl Model for Row {
    ghost use Rattle.std.specs.Prelude.{List, ℕ};

    ghost Value = { List ℕ };

    ghost view = { λ r. r.places.items };
}

impl Row {
    /// What stands at this number.
    fn place(&self, number: usize) -> Option<usize>
        ensures { result ≡ slice_get self.now number }
    {
        self.places.get(number).copied()
    }
}

/// Where the instances of each replica are proposed.
#[derive(Drop)]
pub(crate) struct Proposals {
    rows: Vec<Row>,
}

impl Model for Proposals {
    ghost use Rattle.std.specs.Prelude.{List, ℕ};

    ghost Value = { List (List ℕ) };

    ghost view = { λ p. p.rows.items };
}

/// Makes the list long enough for this number, by `none`.
fn widen(places: &mut Vec<usize>, number: usize, none: usize) -> Result<(), AllocError>
    requires { number < 2 ^ 16 }
    ensures number { OnOk result (number < length places.new.items) }
    ensures same { (n : ℕ) → get_or places.new.items n none ≡ get_or places.old.items n none }
{
    if number < places.len() {
        return Ok(());
    }
    places.resize(number + 1, none)
}

/// Writes the place at this number.
fn put(places: &mut Vec<usize>, number: usize, place: usize, none: usize) -> Result<(), AllocError>
    requires { number < 2 ^ 16 }
    ensures { OnOk result ((n : ℕ) → get_or places.new.items n none ≡ cond (eqb n number) place (get_or places.old.items n none)) }
{
    widen(places, number, none)?;
    places[number] = place;
    Ok(())
}

/// Notes the place of an entry, if it proposes an instance of the replica; `none` stands at numbers of which nothing is noted.
fn mark(
    places: &mut Vec<usize>,
    replica: ReplicaId,
    entry: &Entry,
    place: usize,
    none: usize,
) -> Result<(), AllocError>
    ensures { OnOk result (IsMarked replica (proposed entry.now.event entry.now.frames) place none places.old.items places.new.items) }
{
    let Some(instance) = proposed(entry) else {
        return Ok(());
    };
    if instance.replica() != replica {
        return Ok(());
    }
    put(places, instance.number() as usize, place, none)
}

/// Where the replica's instances are proposed, among its entries.
fn row_of(alloc: Global, replica: ReplicaId, entries: &[Entry]) -> Result<Row, AllocError>
    ensures { IfOk result (λ row. IsRow replica entries.now row) }
{
    let mut places = Vec::new(alloc);
    for place in (0..entries.len()).rev() {
        mark(&mut places, replica, &entries[place], place, entries.len())?;
    }
    Ok(Row { places })
}

/// Where the instances of the replica of this number are proposed.
fn row_at(alloc: Global, journals: &Journals, replica: u8) -> Result<Row, AllocError>
    requires journals { AreJournals journals.now }
    requires replica { replica ≤ 6 }
    ensures { IfOk result (λ row. IsRow replica (entries_at journals.now replica) row) }
{
    match ReplicaId::new(replica) {
        Ok(replica) => row_of(alloc, replica, entries_of(journals, replica)),
        Err(_) => unreachable!(),
    }
}

impl Proposals {
    /// Where the instances of as many replicas are proposed.
    pub fn of(alloc: Global, journals: &Journals, count: u8) -> Result<Proposals, AllocError>
        requires journals { AreJournals journals.now }
        requires replicas { count ≤ 7 }
        ensures { IfOk result (λ rows. AreRows journals.now count rows) }
    {
        let mut rows = Vec::new(alloc);
        for replica in 0..count {
            let row = row_at(alloc, journals, replica)?;
            rows.push(row)?;
        }
        Ok(Proposals { rows })
    }

    /// The place of the instance's proposal in its leader's journal, or how many entries that has; none where the
    /// leader is no replica of the cluster.
    fn place(&self, instance: InstanceId) -> Option<usize>
        ensures value { result ≡ slice_get (get_or self.now (leader_of instance) []) (number_of instance) }
        ensures number { number_of instance ≤ highest_number }
    {
        let number = instance.number() as usize;
        match self.rows.get(instance.replica().index() as usize) {
            Some(row) => row.place(number),
            None => None,
        }
    }

    /// The instance's proposal, in its leader's journal.
    pub fn find<'a>(&self, journals: &'a Journals, instance: InstanceId) -> Option<&'a Entry>
        requires journals { AreJournals journals.now }
        requires rows { AreRows journals.now (size journals.now.faults) self.now }
        ensures { option_copied result ≡ proposal_of journals.now instance }
    {
        let entries = entries_of(journals, instance.replica());
        match self.place(instance) {
            Some(place) => entry_in(entries, place),
            None => None,
        }
    }
}
