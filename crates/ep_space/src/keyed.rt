//! Records of instances, with an index by key.

ghost use Rattle.std.specs.Prelude.{◌≡◌, [], List, ◌≤◌, ◌<◌, ℕ, false, Some, None, IfOk, OnOk, OnErr, if◌then◌else◌};
ghost use Rattle.std.specs.FinSet as set;
ghost use Rattle.std.specs.Option.{option_copied};
ghost use Rattle.ep_base.specs.Instances.{number_of, highest_number, IsInstance};
ghost use Rattle.ep_rules.specs.Cells.{record_or_fresh};
ghost use Rattle.ep_rules.specs.Maps.{none, get, insert};
ghost use Rattle.ep_rules.specs.States.{with_held, is_free};
ghost use Rattle.ep_space.specs.Held.{HasPlace};
ghost use Rattle.ep_space.specs.Index.{run, HasRuns, IsKept};
ghost use Rattle.ep_space.specs.Keys.{index_keys, recorded_keys, keys_at, holders, HasRoom};
ghost use Rattle.ep_space.specs.Names.{named};
ghost use Rattle.ep_space.specs.Open.{AreRecords};
ghost use Rattle.ep_space.specs.Seqs.{recorded_seq};
ghost use Rattle.ep_space.specs.Settled.{as_settled};

use crate::index::{self, Index, enter, leave, make_room, new_index, run_of};
use crate::names::Name;
use crate::seqs::{Seqs, note_seq, seq_at, seq_of, widen};
use crate::table::Table;
use crate::taken::note;
use ep_base::{Ballot, Command, InstanceId, ReplicaId, Vote};
use ep_rules::Record;
use std::alloc::{AllocError, Global};
use std::marker::Model;

/// A table of records, an index of them by key, and their sequence numbers by instance.
#[derive(Drop)]
pub struct Keyed {
    table: Table<Record>,
    index: Index,
    seqs: Seqs,
    taken: [u16; 7],
}

impl Model for Keyed {
    ghost use Rattle.ep_space.specs.Indexed.{Indexed, indexed_code};

    ghost Value = { Indexed };

    ghost coded = { indexed_code };

    ghost use Rattle.ep_space.specs.Index.{roomy_keys, IsKept};
    ghost use Rattle.ep_space.specs.Seqs.{AreSeqs};
    ghost use Rattle.ep_space.specs.Taken.{AreTaken};

    ghost view = { λ k. record { held = k.table.held; places = k.table.places; room = roomy_keys k.index } };

    ghost invariant = { λ k. IsKept k.table k.index × AreSeqs k.table k.seqs.items × AreTaken k.table.held k.taken };
}

impl Keyed {
    /// No records, and no places.
    pub fn new(alloc: Global) -> Keyed
        ensures { result ≡ record { held = none; places = set.empty; room = result.room } }
    {
        Keyed {
            table: Table::new(alloc),
            index: new_index(alloc),
            seqs: Vec::new(alloc),
            taken: [0; 7],
        }
    }

    /// A copy of the records and places.
    pub fn duplicate(&self, alloc: Global) -> Result<Keyed, AllocError>
        ensures { IfOk result (λ k. k ≡ record { held = self.now.held; places = self.now.places; room = k.room }) }
    {
        let table = self.table.duplicate(alloc)?;
        let index = index::duplicate(&self.index, alloc)?;
        let seqs = Vec::from_slice(alloc, &self.seqs)?;
        Ok(Keyed {
            table,
            index,
            seqs,
            taken: self.taken,
        })
    }

    /// The instance's record, if it has one.
    pub fn get(&self, id: InstanceId) -> Option<&Record>
        ensures { option_copied result ≡ get self.now.held id }
    {
        self.table.get(id)
    }

    /// Whether the instance has a place.
    pub fn has_place(&self, id: InstanceId) -> bool
        ensures { result ≡ set.contains self.now.places id }
    {
        self.table.has_place(id)
    }

    /// The instances that have a place, each with its record, if it has one.
    pub fn entries(&self) -> &[(InstanceId, Option<Record>)]
        ensures { AreRecords self.now.held result.now }
    {
        self.table.entries()
    }

    /// A number above which no instance has a record.
    pub fn highest(&self) -> u16
        ensures bounded { result ≤ highest_number }
        ensures none { (i : ℕ) → IsInstance i → result < number_of i → get self.now.held i ≡ None }
    {
        self.table.highest()
    }

    /// Makes a place for the instance, if it has none.
    #[inline(always)]
    pub fn reserve(&mut self, id: InstanceId) -> Result<(), AllocError>
        ensures ok { OnOk result (self.new ≡ record { held = self.old.held; places = set.insert self.old.places id; room = self.old.room }) }
        ensures place { OnOk result (HasPlace self.new.places id) }
        ensures err { OnErr result (self.new ≡ self.old) }
    {
        widen(&mut self.seqs, id)?;
        self.table.reserve(id)
    }

    /// Makes room for each key that the command brings to the instance. There may be more room when out of memory too; nothing else changes.
    #[inline(always)]
    pub fn make_room(&mut self, id: InstanceId, command: &Command) -> Result<(), AllocError>
        ensures room { OnOk result (HasRoom self.new.room (keys_at self.old.held id) (index_keys command.now)) }
        ensures same { self.new ≡ record { held = self.old.held; places = self.old.places; room = self.new.room } }
    {
        room_at(&self.table, &mut self.index, id, command)
    }

    /// Writes this record, or none, at the instance's place, and gives what was there. Each key that it brings has room, which may be used up
    /// then. It takes no memory.
    #[inline(always)]
    pub fn put_back(&mut self, id: InstanceId, value: Option<Record>) -> Option<Record>
        requires place { HasPlace self.old.places id }
        requires room { HasRoom self.old.room (keys_at self.old.held id) (recorded_keys value) }
        ensures old { result ≡ get self.old.held id }
        ensures new { self.new ≡ record { held = with_held self.old.held id value; places = self.old.places; room = self.new.room } }
    {
        let seq = seq_of(&value);
        let is_there = value.is_some();
        let earlier = exchange(&mut self.table, &mut self.index, id, value);
        note_seq(&mut self.seqs, id, seq);
        note(&mut self.taken, &self.table, id, is_there);
        earlier
    }

    /// Writes this record, or none, at the instance's place, as `put_back` does.
    #[inline(always)]
    pub fn write(&mut self, id: InstanceId, value: Option<Record>)
        requires place { HasPlace self.old.places id }
        requires room { HasRoom self.old.room (keys_at self.old.held id) (recorded_keys value) }
        ensures { self.new ≡ record { held = with_held self.old.held id value; places = self.old.places; room = self.new.room } }
    {
        let _ = self.put_back(id, value);
    }

    /// Writes this ballot as the one that is promised in the instance; the vote stays. It takes no memory.
    pub fn promise(&mut self, id: InstanceId, ballot: Ballot)
        requires { HasPlace self.old.places id }
        ensures { self.new ≡ record { held = insert self.old.held id (record { promised = ballot; vote = (record_or_fresh id (get self.old.held id)).vote }); places = self.old.places; room = self.old.room } }
    {
        write_promise(&mut self.table, id, ballot);
        note(&mut self.taken, &self.table, id, true);
    }

    /// Commits what the record voted for, if it voted: both ballots stay. It takes no memory.
    #[inline(always)]
    pub fn settle(&mut self, id: InstanceId)
        requires { HasPlace self.old.places id }
        ensures { self.new ≡ record { held = with_held self.old.held id (as_settled (get self.old.held id)); places = self.old.places; room = self.old.room } }
    {
        self.table.settle(id);
    }

    /// The instances whose recorded command has the name, in rising order.
    #[inline(always)]
    pub(crate) fn run(&self, name: Name<'_>) -> &[InstanceId]
        ensures { result.now ≡ holders (named name.entry) self.now.held }
    {
        run_of(&self.index, name)
    }

    /// The sequence number that the instance's record votes for; 0 where it votes for none.
    pub fn seq(&self, id: InstanceId) -> u32
        ensures { result ≡ recorded_seq (get self.now.held id) }
    {
        seq_at(&self.seqs, id)
    }

    /// A number of the replica's first instances that all have a record.
    pub fn taken_by(&self, replica: ReplicaId) -> u16
        ensures bounded { result ≤ highest_number }
        ensures full { (n : ℕ) → n < result → is_free self.now.held replica n ≡ false }
    {
        self.taken[usize::from(replica.index())]
    }
}

/// Makes room in the index for each key that the command brings to the instance.
#[inline(always)]
fn room_at(
    table: &Table<Record>,
    index: &mut Index,
    id: InstanceId,
    command: &Command,
) -> Result<(), AllocError>
    ensures room { OnOk result (HasRuns index.new (keys_at table.now.held id) (index_keys command.now)) }
    ensures same { (k : List ℕ) → run index.new k ≡ run index.old k }
{
    make_room(index, table.get(id), command)
}

/// Writes this record, or none, at the instance's place, and gives what was there; the index follows.
#[inline(always)]
fn exchange(
    table: &mut Table<Record>,
    index: &mut Index,
    id: InstanceId,
    value: Option<Record>,
) -> Option<Record>
    requires place { HasPlace table.old.places id }
    requires kept { IsKept table.old index.old }
    requires room { HasRuns index.old (keys_at table.old.held id) (recorded_keys value) }
    ensures old { result ≡ get table.old.held id }
    ensures new { table.new ≡ record { held = with_held table.old.held id value; places = table.old.places } }
    ensures kept { IsKept table.new index.new }
{
    let there = table.get(id);
    enter(index, id, there, &value);
    leave(index, id, there, &value);
    table.put_back(id, value)
}

#[tactic(auto, using(crate::proofs::Twice::insert_after_remove))]
fn write_promise(table: &mut Table<Record>, id: InstanceId, ballot: Ballot)
    requires { HasPlace table.old.places id }
    ensures { table.new ≡ record { held = insert table.old.held id (record { promised = ballot; vote = (record_or_fresh id (get table.old.held id)).vote }); places = table.old.places } }
{
    let earlier = table.put_back(id, None);
    let vote = vote_of(id, earlier);
    table.write(
        id,
        Some(Record {
            promised: ballot,
            vote,
        }),
    );
}

/// The vote of a record, if there is one.
fn vote_of(_id: InstanceId, earlier: Option<Record>) -> Option<Vote>
    ensures { result ≡ (record_or_fresh _id earlier).vote }
{
    match earlier {
        None => None,
        Some(record) => record.vote,
    }
}
