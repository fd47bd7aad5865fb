//! What a replica knows of one instance.

ghost use Rattle.std.specs.Prelude.{◌≡◌};
ghost use Rattle.std.specs.Option.{option_copied};
ghost use Rattle.ep_rules.specs.Cells.{voted_ballot, is_committed, is_done_at, is_settled_at};
ghost use Rattle.ep_phase.specs.InstanceViews.{view_of, record_of};

use crate::lead::Lead;
use ep_base::{Ballot, InstanceId, ReplicaId, Size, Vote, VoteStatus};
use ep_rules::{LedInstance, Record};
use ep_space::Space;
use std::marker::Model;

/// What a replica knows of one instance: its record, and what is led there, each looked up once, and lent; the greatest counter that a Nack named;
/// and all of the replica's records, for the interference set of a command.
#[derive(Drop)]
pub struct InstanceView<'a> {
    space: &'a Space,
    me: ReplicaId,
    id: InstanceId,
    entry: Option<&'a Record>,
    led: Option<&'a LedInstance>,
    lead: &'a Lead,
}

impl<'a> Model for InstanceView<'a> {
    ghost use Rattle.std.specs.Prelude.{◌≡◌};
    ghost use Rattle.std.specs.Option.{option_copied};
    ghost use Rattle.ep_rules.specs.Maps.{get};
    ghost use Rattle.ep_rules.specs.States.{or_zero};
    ghost use Rattle.ep_phase.specs.InstanceViews.{InstanceView, known_code};

    ghost Value = { InstanceView };

    ghost coded = { known_code };

    ghost view = { λ c. record { faults = c.space.now.faults; me = c.me; instance = c.id; records = c.space.now.records; led = option_copied c.led; reported = or_zero (get c.lead.now.reported c.id) } };

    ghost invariant = { λ c. option_copied c.entry ≡ get c.space.now.records c.id };
}

impl<'a> InstanceView<'a> {
    /// What replica `me` knows of the instance, by its records and what it leads.
    pub fn of(space: &'a Space, lead: &'a Lead, me: ReplicaId, id: InstanceId) -> InstanceView<'a>
        ensures { result ≡ view_of me space.now lead.now id }
    {
        InstanceView {
            space,
            me,
            id,
            entry: space.get(id),
            led: lead.get(id),
            lead,
        }
    }

    /// The cluster's size.
    pub fn size(&self) -> Size
        ensures { result ≡ self.now.faults }
    {
        self.space.size()
    }

    /// The replica.
    pub fn me(&self) -> ReplicaId
        ensures { result ≡ self.now.me }
    {
        self.me
    }

    /// The instance.
    pub fn id(&self) -> InstanceId
        ensures { result ≡ self.now.instance }
    {
        self.id
    }

    /// All that the replica recorded.
    pub fn space(&self) -> &'a Space
        ensures faults { result.now.faults ≡ self.now.faults }
        ensures records { result.now.records ≡ self.now.records }
    {
        self.space
    }

    /// The ballot that the replica joined last in the instance.
    pub fn promised(&self) -> Ballot
        ensures { result ≡ (record_of self.now).promised }
    {
        match self.entry {
            None => Ballot::default_of(self.id.replica()),
            Some(record) => record.promised,
        }
    }

    /// The replica's last vote in the instance, if it voted.
    pub fn vote(&self) -> Option<&'a Vote>
        ensures { option_copied result ≡ (record_of self.now).vote }
    {
        match self.entry {
            None => None,
            Some(record) => record.vote.as_ref(),
        }
    }

    /// Whether the replica has committed the instance.
    pub fn is_committed(&self) -> bool
        ensures { result ≡ is_committed (record_of self.now).vote }
    {
        match self.vote() {
            None => false,
            Some(vote) => matches!(vote.status, VoteStatus::Committed),
        }
    }

    /// Whether the replica has committed the instance, or voted at this ballot.
    pub fn is_done_at(&self, ballot: Ballot) -> bool
        ensures { result ≡ is_done_at ballot (record_of self.now).vote }
    {
        match self.vote() {
            None => false,
            Some(vote) => matches!(vote.status, VoteStatus::Committed) || vote.ballot == ballot,
        }
    }

    /// Whether the replica has committed the instance, or accepted at this ballot.
    pub fn is_settled_at(&self, ballot: Ballot) -> bool
        ensures { result ≡ is_settled_at ballot (record_of self.now).vote }
    {
        match self.vote() {
            None => false,
            Some(vote) => match vote.status {
                VoteStatus::PreAccepted => false,
                VoteStatus::Accepted => vote.ballot == ballot,
                VoteStatus::Committed => true,
            },
        }
    }

    /// What the replica leads in the instance, if something is.
    pub fn led(&self) -> Option<&'a LedInstance>
        ensures { option_copied result ≡ self.now.led }
    {
        self.led
    }

    /// The greatest counter that a Nack named for the instance, 0 where none did.
    pub fn reported(&self) -> u16
        ensures { result ≡ self.now.reported }
    {
        self.lead.reported(self.id)
    }
}
