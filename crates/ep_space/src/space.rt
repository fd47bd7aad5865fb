//! The records of a replica.

ghost use Rattle.std.specs.Prelude.{ℕ, ◌≡◌, ◌≤◌, ◌<◌, ◌-◌, ◌∷◌, true, false, Ok, Err, Some, None, IfOk, IfSome, IfNone, IsErr, OnOk, OnErr, if◌then◌else◌};
ghost use Rattle.std.specs.Option.{option_copied};
ghost use Rattle.std.specs.FinSet as set;
ghost use Rattle.ep_base.specs.Instances.{number_of, highest_number, IsInstance};
ghost use Rattle.ep_base.specs.Versions.{highest_in};
ghost use Rattle.ep_base.specs.declared.version_kind.VersionKind.TheVariants.{V2};
ghost use Rattle.ep_rules.specs.Cells.{is_committed, is_done_at, is_settled_at, voted, voted_ballot};
ghost use Rattle.ep_rules.specs.InterferenceSet.{interference};
ghost use Rattle.ep_rules.specs.Maps.{none, get};
ghost use Rattle.ep_rules.specs.Phases.{with_commit};
ghost use Rattle.ep_rules.specs.States.{or_zero, is_free, free_number, committed_in, with_entry};
ghost use Rattle.ep_space.specs.Gathering.{next_attrs};
ghost use Rattle.ep_space.specs.Held.{HasPlace};
ghost use Rattle.ep_space.specs.Keys.{recorded_keys, keys_at, holders, HasRoom};
ghost use Rattle.ep_space.specs.Open.{AreRecords};
ghost use Rattle.ep_space.specs.Records.{record_at, with_record, with_earlier, IsReady};
ghost use Rattle.ep_space.specs.Settled.{settled};

use crate::gathered::{Gathered, gathered_from};
use crate::interference_fault::InterferenceFault;
use crate::keyed::Keyed;
use crate::names::Name;
use crate::space_full::SpaceFull;
use ep_base::{
    Attrs, Ballot, Command, Decree, Deps, InstanceId, ReplicaId, Seq, Size, Version, Vote,
    VoteStatus,
};
use ep_rules::Record;
use std::alloc::{AllocError, Global};
use std::marker::Model;

/// The records of a replica, one for each instance of which it knows anything (EPaxos, section 4.3: the `cmds` array).
/// An instance first gets a place, and room in the index for the keys of its next command, both of which take memory; its record is then
/// written without.
pub struct Space {
    size: Size,
    version: Version,
    table: Keyed,
}

// (by hand, so that no crate above proves again how the parts are dropped)
impl Drop for Space {
    fn drop(self) {
        let Space {
            table,
            size: _,
            version: _,
        } = self;
        drop(table);
    }
}

impl Model for Space {
    ghost use Rattle.ep_space.specs.Records.{Records, records_code};

    ghost Value = { Records };

    ghost coded = { records_code };

    ghost view = { λ s. record { faults = s.size; version = s.version; records = s.table.held; places = s.table.places; room = s.table.room } };
}

impl Space {
    /// No records, of a cluster of this size, at a replica of this version.
    pub fn new(alloc: Global, size: Size, version: Version) -> Space
        ensures { result ≡ record { faults = size; version = version; records = none; places = set.empty; room = result.room } }
    {
        Space {
            size,
            version,
            table: Keyed::new(alloc),
        }
    }

    /// The size of the cluster.
    pub fn size(&self) -> Size
        ensures { result ≡ self.now.faults }
    {
        self.size
    }

    /// The version, which says how many instances a replica leads.
    pub fn version(&self) -> Version
        ensures { result ≡ self.now.version }
    {
        self.version
    }

    /// Goes on in version 2, with all that is recorded.
    pub fn upgrade(&mut self)
        ensures { self.new ≡ record self.old { version = V2 } }
    {
        self.version = Version::V2;
    }

    /// The record of the instance, if there is one.
    pub fn get(&self, id: InstanceId) -> Option<&Record>
        ensures { option_copied result ≡ get self.now.records id }
    {
        self.table.get(id)
    }

    /// The instances that have a place, each with its record, if it has one.
    pub(crate) fn entries(&self) -> &[(InstanceId, Option<Record>)]
        ensures { AreRecords self.now.records result.now }
    {
        self.table.entries()
    }

    /// The instances whose recorded commands have the key, as the index has them: those that write it, and those that
    /// only read it. Both lists rise.
    pub fn key_run(&self, key: &[u8]) -> (&[InstanceId], &[InstanceId])
        ensures writes { result.0.now ≡ holders (0 ∷ key.now) self.now.records }
        ensures reads { result.1.now ≡ holders (1 ∷ key.now) self.now.records }
    {
        let writes = self.table.run(Name::Writes(key));
        let reads = self.table.run(Name::Reads(key));
        (writes, reads)
    }

    /// The instance that has this place in the table, if one has it: `InstanceId::place` says which place is an
    /// instance's.
    pub fn instance_at(&self, place: u32) -> Option<InstanceId>
        ensures some { IfSome result (λ i. (i ≡ place) × HasPlace self.now.places i) }
        ensures none { IfNone result (IsInstance place → set.contains self.now.places place ≡ false) }
    {
        let id = InstanceId::at(place).ok()?;
        if self.table.has_place(id) {
            Some(id)
        } else {
            None
        }
    }

    /// A number above which no instance has a record: of what follows, nothing has to be looked up.
    pub fn highest(&self) -> u16
        ensures bounded { result ≤ highest_number }
        ensures none { (i : ℕ) → IsInstance i → result < number_of i → get self.now.records i ≡ None }
    {
        self.table.highest()
    }

    /// All records and places again. It may have less room.
    pub fn duplicate(&self, alloc: Global) -> Result<Space, AllocError>
        ensures { IfOk result (λ s. s ≡ record self.now { room = s.room }) }
    {
        let table = self.table.duplicate(alloc)?;
        Ok(Space {
            size: self.size,
            version: self.version,
            table,
        })
    }

    /// The record again, if there is one: what a later `put_back` may put back.
    pub fn copy(&self, alloc: Global, id: InstanceId) -> Result<Option<Record>, AllocError>
        ensures { IfOk result (λ o. o ≡ get self.now.records id) }
    {
        match self.get(id) {
            None => Ok(None),
            Some(record) => Ok(Some(record.copy(alloc)?)),
        }
    }

    /// Makes a place for the instance's record, if it has none. It counts as no record.
    pub fn reserve(&mut self, id: InstanceId) -> Result<(), AllocError>
        ensures ok { OnOk result (self.new ≡ record self.old { places = set.insert self.old.places id }) }
        ensures place { OnOk result (HasPlace self.new.places id) }
        ensures err { OnErr result (self.new ≡ self.old) }
    {
        self.table.reserve(id)
    }

    /// Makes a place for the instance's record, if it has none, and room in the index for what a vote for this command brings there. Nothing
    /// else changes; when out of memory there may be more room, and no place more.
    #[inline(always)]
    pub fn reserve_for(&mut self, id: InstanceId, command: &Command) -> Result<(), AllocError>
        ensures ok { OnOk result (self.new ≡ record self.old { places = set.insert self.old.places id; room = self.new.room }) }
        ensures ready { OnOk result (IsReady self.new id command.now) }
        ensures err { OnErr result (self.new ≡ record self.old { room = self.new.room }) }
    {
        self.table.make_room(id, command)?;
        self.table.reserve(id)
    }

    /// Puts back an earlier record, or that there was none, and gives what there is now. Each key that it brings has room, which may be used
    /// up then. It takes no memory.
    pub fn put_back(&mut self, id: InstanceId, earlier: Option<Record>) -> Option<Record>
        requires place { HasPlace self.old.places id }
        requires room { HasRoom self.old.room (keys_at self.old.records id) (recorded_keys earlier) }
        ensures old { result ≡ get self.old.records id }
        ensures new { self.new ≡ record (with_earlier self.old id earlier) { room = self.new.room } }
    {
        self.table.put_back(id, earlier)
    }

    // What is recorded.

    /// The ballot that the replica joined last in the instance.
    pub fn promised(&self, id: InstanceId) -> Ballot
        ensures { result ≡ (record_at self.now id).promised }
    {
        match self.get(id) {
            None => Ballot::default_of(id.replica()),
            Some(record) => record.promised,
        }
    }

    /// The replica's last vote in the instance, if it voted.
    pub fn vote(&self, id: InstanceId) -> Option<&Vote>
        ensures { option_copied result ≡ (record_at self.now id).vote }
    {
        match self.get(id) {
            None => None,
            Some(record) => record.vote.as_ref(),
        }
    }

    /// The ballot of the last vote: the default one where there is none.
    pub fn voted_ballot(&self, id: InstanceId) -> Ballot
        ensures { result ≡ voted_ballot id (record_at self.now id).vote }
    {
        match self.vote(id) {
            None => Ballot::default_of(id.replica()),
            Some(vote) => vote.ballot,
        }
    }

    /// Whether the replica has committed the instance.
    pub fn is_committed(&self, id: InstanceId) -> bool
        ensures { result ≡ is_committed (record_at self.now id).vote }
    {
        match self.vote(id) {
            None => false,
            Some(vote) => matches!(vote.status, VoteStatus::Committed),
        }
    }

    /// Whether the replica has committed the instance, or voted at this ballot.
    pub fn is_done_at(&self, id: InstanceId, ballot: Ballot) -> bool
        ensures { result ≡ is_done_at ballot (record_at self.now id).vote }
    {
        match self.vote(id) {
            None => false,
            Some(vote) => matches!(vote.status, VoteStatus::Committed) || vote.ballot == ballot,
        }
    }

    /// Whether the replica has committed the instance, or accepted at this ballot.
    pub fn is_settled_at(&self, id: InstanceId, ballot: Ballot) -> bool
        ensures { result ≡ is_settled_at ballot (record_at self.now id).vote }
    {
        match self.vote(id) {
            None => false,
            Some(vote) => match vote.status {
                VoteStatus::PreAccepted => false,
                VoteStatus::Accepted => vote.ballot == ballot,
                VoteStatus::Committed => true,
            },
        }
    }

    /// What is committed in the instance, if something is.
    pub fn committed(&self, id: InstanceId) -> Option<&Decree>
        ensures { option_copied result ≡ committed_in self.now.records id }
    {
        match self.vote(id) {
            None => None,
            Some(vote) => match vote.status {
                VoteStatus::Committed => Some(&vote.decree),
                _ => None,
            },
        }
    }

    // What is written. It takes no memory. A vote may use up the room that its command's keys have.

    /// Joins the ballot (Sutra, 2019): the last vote stays.
    pub fn join_ballot(&mut self, id: InstanceId, ballot: Ballot)
        requires { HasPlace self.old.places id }
        ensures { self.new ≡ with_record self.old id (record { promised = ballot; vote = (record_at self.old id).vote }) }
    {
        self.table.promise(id, ballot);
    }

    /// Pre-accepts the decree at the ballot.
    #[inline(always)]
    pub fn vote_pre(&mut self, id: InstanceId, ballot: Ballot, decree: Decree)
        requires { IsReady self.old id decree.command }
        ensures { self.new ≡ record (with_record self.old id (voted ballot VoteStatus.PreAccepted decree)) { room = self.new.room } }
    {
        self.write_vote(id, ballot, VoteStatus::PreAccepted, decree);
    }

    /// Accepts the decree at the ballot.
    pub fn vote_accept(&mut self, id: InstanceId, ballot: Ballot, decree: Decree)
        requires { IsReady self.old id decree.command }
        ensures { self.new ≡ record (with_record self.old id (voted ballot VoteStatus.Accepted decree)) { room = self.new.room } }
    {
        self.write_vote(id, ballot, VoteStatus::Accepted, decree);
    }

    /// Commits the decree: both ballots stay.
    pub fn commit(&mut self, id: InstanceId, decree: Decree)
        requires { IsReady self.old id decree.command }
        ensures { self.new ≡ record (with_record self.old id (with_commit id (record_at self.old id) decree)) { room = self.new.room } }
    {
        let promised = self.promised(id);
        let ballot = self.voted_ballot(id);
        let vote = Vote {
            status: VoteStatus::Committed,
            ballot,
            decree,
        };
        self.table.write(
            id,
            Some(Record {
                promised,
                vote: Some(vote),
            }),
        );
    }

    /// Commits what was voted for, if something was: both ballots and the decree stay.
    #[inline(always)]
    pub fn settle(&mut self, id: InstanceId)
        requires { HasPlace self.old.places id }
        ensures { self.new ≡ record self.old { records = with_entry self.old.records id (settled id (record_at self.old id) (record_at self.old id).vote) } }
    {
        self.table.settle(id);
    }

    #[inline(always)]
    fn write_vote(&mut self, id: InstanceId, ballot: Ballot, status: VoteStatus, decree: Decree)
        requires { IsReady self.old id decree.command }
        ensures { self.new ≡ record (with_record self.old id (voted ballot status decree)) { room = self.new.room } }
    {
        let promised = ballot;
        let vote = Vote {
            status,
            ballot,
            decree,
        };
        self.table.write(
            id,
            Some(Record {
                promised,
                vote: Some(vote),
            }),
        );
    }

    // What is free, and what interferes.

    /// The least number of an instance that the replica leads and of which nothing is recorded; `SpaceFull` where there is none
    /// up to the highest number of the version.
    pub fn free_number(&self, replica: ReplicaId) -> Result<u16, SpaceFull>
        ensures free { IfOk result (λ n. (1 ≤ n) × (n ≤ highest_in self.now.version) × (free_number self.now.records replica ≡ Some (n - 1))) }
        ensures number { IfOk result (λ n. n ≤ highest_number) }
        ensures full { IsErr result → (n : ℕ) → free_number self.now.records replica ≡ Some n → highest_in self.now.version ≤ n }
    {
        let taken = self.table.taken_by(replica);
        for place in taken..self.version.highest_number() {
            if self.is_free(replica, place) {
                return Ok(place + 1);
            }
        }
        Err(SpaceFull)
    }

    fn is_free(&self, replica: ReplicaId, place: u16) -> bool
        requires { place < highest_number }
        ensures { result ≡ is_free self.now.records replica place }
    {
        let id = InstanceId::new(replica, place + 1).unwrap();
        self.get(id).is_none()
    }

    /// The command's interference set in the instance (EPaxos, figure 2): the other instances whose recorded commands interfere with it,
    /// and one more than their greatest sequence number; `SeqExhausted` where that passes 1,000,000.
    #[inline(always)]
    pub fn interference(
        &self,
        alloc: Global,
        command: &Command,
        except: InstanceId,
    ) -> Result<Attrs, InterferenceFault>
        ensures ok { IfOk result (λ a. a ≡ interference self.now.records except command.now) }
        ensures in_range { IfOk result (λ a. a.seq ≤ 1000000) }
        ensures exhausted { result ≡ Err InterferenceFault.SeqExhausted → 1000000 < (interference self.now.records except command.now).seq }
    {
        let Ok(gathered) = self.gather(alloc, command, Some(except)) else {
            return Err(InterferenceFault::Memory);
        };
        if gathered.seq >= 1_000_000 {
            return Err(InterferenceFault::SeqExhausted);
        }
        let seq = Seq::new(1 + gathered.seq).unwrap();
        Ok(Attrs {
            seq,
            deps: gathered.deps.into_deps(),
        })
    }

    /// The instances whose recorded commands interfere with the command: what a look at this replica finds for a read.
    pub fn interfering(&self, alloc: Global, command: &Command) -> Result<Deps, AllocError>
        ensures { IfOk result (λ d. d ≡ (interference self.now.records 0 command.now).deps) }
    {
        let gathered = self.gather(alloc, command, None)?;
        Ok(gathered.deps.into_deps())
    }

    #[inline(always)]
    fn gather(
        &self,
        alloc: Global,
        command: &Command,
        except: Option<InstanceId>,
    ) -> Result<Gathered, AllocError>
        ensures { IfOk result (λ g. next_attrs g ≡ interference self.now.records (or_zero except) command.now) }
    {
        gathered_from(alloc, &self.table, command, except)
    }
}
