//! What an event changes.

ghost use Rattle.std.specs.Prelude.{◌≡◌, [], false, cond, None, Some, IsOk, OnOk, OnErr, IfSome, IfNone};
ghost use Rattle.std.specs.Option.{option_copied};
ghost use Rattle.ep_base.specs.declared.message.Message.TheVariants.{Nack};
ghost use Rattle.ep_rules.specs.Cells as rules;
ghost use Rattle.ep_rules.specs.Maps.{get};
ghost use Rattle.ep_rules.specs.States.{with_entry, with_led};
ghost use Rattle.ep_space.specs.Held.{HasPlace};
ghost use Rattle.ep_space.specs.Records.{record_at};
ghost use Rattle.ep_phase.specs.Changes.{adds_answer, change_of, decree_in, entry_of, led_of, message_in, new_record, sends, to_receivers, voted_decree, HasRecordPlace, HasLeadPlace, HasReportedPlace};
ghost use Rattle.ep_phase.specs.InstanceViews.{InstanceView, record_of};
ghost use Rattle.ep_base.specs.Messages.{says};

use crate::instance_view::InstanceView;
use crate::lead::Lead;
use crate::lead_change::LeadChange;
use crate::receivers::Receivers;
use crate::recorded::Recorded;
use crate::sending::{Sending, What};
use ep_base::{Ballot, Decree, InstanceId, MessageView, ReplicaId};
use ep_frame::InstanceMessage;
use ep_rules::LedInstance;
use ep_space::Space;
use std::alloc::AllocError;

/// What an event changes of one instance, and what it sends. All that may fail for the sake of the protocol is done; nothing has
/// changed yet.
#[derive(Drop)]
pub struct Change {
    pub entry: Recorded,
    pub led: LeadChange,
    /// The counter that a Nack named; none where the one before stays.
    pub reported: Option<u16>,
    pub out: Option<Sending>,
}

impl Change {
    /// Nothing changes, and nothing is sent.
    pub fn nothing() -> Change
        ensures { (k : InstanceView) → change_of k result ≡ rules.nothing }
    {
        Change::of(Recorded::Stays, LeadChange::Stays, None)
    }

    /// Nothing changes, and this replica learns that the first ballot is refused, since the second one is promised.
    pub fn refused(from: ReplicaId, ballot: Ballot, promised: Ballot) -> Change
        ensures { (k : InstanceView) → change_of k result ≡ rules.answered from (Nack k.instance ballot promised) }
    {
        let out = Sending {
            to: Receivers::One(from),
            what: What::Nack(ballot, promised),
        };
        Change::of(Recorded::Stays, LeadChange::Stays, Some(out))
    }

    /// This is led from now on.
    pub fn kept(led: LedInstance) -> Change
        ensures { (k : InstanceView) → change_of k result ≡ rules.kept led }
    {
        Change::of(Recorded::Stays, LeadChange::Leads(led), None)
    }

    /// This is recorded, led and sent; the counter stays.
    #[inline(always)]
    pub fn of(entry: Recorded, led: LeadChange, out: Option<Sending>) -> Change
        ensures { result ≡ record { entry = entry; led = led; reported = None; out = out } }
    {
        Change {
            entry,
            led,
            reported: None,
            out,
        }
    }

    /// What is sent, and to whom; its parts are the change's, or those of the replica's last vote.
    pub fn said<'a>(&'a self, cell: &InstanceView<'a>) -> Option<(Receivers, InstanceMessage<'a>)>
        ensures some { IfSome result (λ t. sends cell.now self.now ≡ to_receivers cell.now.faults cell.now.me cell.now.instance t.0 (says t.1.instance t.1.said)) }
        ensures none { IfNone result (sends cell.now self.now ≡ []) }
    {
        match &self.out {
            None => None,
            Some(sending) => match said_of(&self.entry, cell, sending.what) {
                None => None,
                Some(said) => {
                    let instance = cell.id();
                    Some((sending.to, InstanceMessage { instance, said }))
                }
            },
        }
    }

    /// Makes the places that the change needs, and the room in the index. Nothing else has changed then, when out of memory either.
    pub fn reserve(
        &self,
        space: &mut Space,
        lead: &mut Lead,
        id: InstanceId,
    ) -> Result<(), AllocError>
        ensures record { OnOk result (HasRecordPlace self.now.entry space.new id) }
        ensures led { OnOk result (HasLeadPlace self.now.led lead.new.places id) }
        ensures reported { OnOk result (HasReportedPlace self.now.reported lead.new.reported_places id) }
        ensures same_space { space.new ≡ record space.old { places = space.new.places; room = space.new.room } }
        ensures same_lead { lead.new ≡ record lead.old { places = lead.new.places; reported_places = lead.new.reported_places } }
    {
        reserve_record(&self.entry, space, id)?;
        reserve_led(&self.led, lead, id)?;
        reserve_reported(&self.reported, lead, id)
    }

    /// Puts the change in place. It takes no memory, but for an answer more, which is all that changes then: when out of memory, nothing has
    /// changed.
    #[inline(always)]
    pub fn install(
        self,
        space: &mut Space,
        lead: &mut Lead,
        id: InstanceId,
    ) -> Result<(), AllocError>
        requires record { HasRecordPlace self.entry space.old id }
        requires led { HasLeadPlace self.led lead.old.places id }
        requires reported { HasReportedPlace self.reported lead.old.reported_places id }
        ensures records { OnOk result (space.new ≡ record space.old { records = with_entry space.old.records id (new_record id (record_at space.old id) self); room = space.new.room }) }
        ensures leads { OnOk result (lead.new ≡ record lead.old { leads = with_led lead.old.leads id (led_of (get lead.old.leads id) self.led); reported = with_entry lead.old.reported id self.reported }) }
        ensures records_stay { OnErr result (space.new ≡ space.old) }
        ensures leads_stay { OnErr result (lead.new ≡ lead.old) }
        ensures succeeds { adds_answer self.led ≡ false → IsOk result }
    {
        let Change {
            entry,
            led,
            reported,
            out: _,
        } = self;
        write(space, lead, id, entry, led)?;
        if let Some(counter) = reported {
            lead.set_reported(id, counter);
        }
        Ok(())
    }
}

/// What a message says, where it needs no decree or there is one.
fn said_of<'a>(entry: &'a Recorded, cell: &InstanceView<'a>, what: What) -> Option<MessageView<'a>>
    ensures some { IfSome result (λ s. message_in cell.now.instance (record_of cell.now).vote (decree_in (record_of cell.now).vote entry.now) what ≡ Some (says cell.now.instance s)) }
    ensures none { IfNone result (message_in cell.now.instance (record_of cell.now).vote (decree_in (record_of cell.now).vote entry.now) what ≡ None) }
{
    match what {
        What::PreAccept(ballot) => Some(MessageView::PreAccept(ballot, decree_of(entry, cell)?)),
        What::PreAcceptOk(ballot) => {
            let decree = decree_of(entry, cell)?;
            Some(MessageView::PreAcceptOk(ballot, &decree.attrs))
        }
        What::Accept(ballot) => Some(MessageView::Accept(ballot, decree_of(entry, cell)?)),
        What::AcceptOk(ballot) => Some(MessageView::AcceptOk(ballot)),
        What::Commit => Some(MessageView::Commit(decree_of(entry, cell)?)),
        What::Prepare(ballot) => Some(MessageView::Prepare(ballot)),
        What::PrepareOk(ballot) => Some(MessageView::PrepareOk(ballot, cell.vote())),
        What::Nack(ballot, promised) => Some(MessageView::Nack(ballot, promised)),
    }
}

/// The decree that a message is about: the one that is voted for, or else that of the last vote.
fn decree_of<'a>(entry: &'a Recorded, cell: &InstanceView<'a>) -> Option<&'a Decree>
    ensures { option_copied result ≡ decree_in (record_of cell.now).vote entry.now }
{
    match entry {
        Recorded::PreAccepts(_, decree) => Some(decree),
        Recorded::Accepts(_, decree) => Some(decree),
        Recorded::Commits(decree) => Some(decree),
        Recorded::Stays => voted_decree(cell),
        Recorded::Joins(_) => voted_decree(cell),
        Recorded::Settles => voted_decree(cell),
    }
}

fn voted_decree<'a>(cell: &InstanceView<'a>) -> Option<&'a Decree>
    ensures { option_copied result ≡ voted_decree (record_of cell.now).vote }
{
    match cell.vote() {
        None => None,
        Some(vote) => Some(&vote.decree),
    }
}

fn reserve_record(entry: &Recorded, space: &mut Space, id: InstanceId) -> Result<(), AllocError>
    ensures place { OnOk result (HasRecordPlace entry.now space.new id) }
    ensures same { space.new ≡ record space.old { places = space.new.places; room = space.new.room } }
{
    match entry {
        Recorded::Stays => Ok(()),
        Recorded::Joins(_) => space.reserve(id),
        Recorded::PreAccepts(_, decree) => space.reserve_for(id, &decree.command),
        Recorded::Accepts(_, decree) => space.reserve_for(id, &decree.command),
        Recorded::Commits(decree) => space.reserve_for(id, &decree.command),
        Recorded::Settles => space.reserve(id),
    }
}

fn reserve_led(led: &LeadChange, lead: &mut Lead, id: InstanceId) -> Result<(), AllocError>
    ensures place { OnOk result (HasLeadPlace led.now lead.new.places id) }
    ensures same { lead.new ≡ record lead.old { places = lead.new.places } }
{
    match led {
        LeadChange::Stays => Ok(()),
        LeadChange::Ends => Ok(()),
        _ => lead.reserve(id),
    }
}

fn reserve_reported(
    reported: &Option<u16>,
    lead: &mut Lead,
    id: InstanceId,
) -> Result<(), AllocError>
    ensures place { OnOk result (HasReportedPlace reported.now lead.new.reported_places id) }
    ensures same { lead.new ≡ record lead.old { reported_places = lead.new.reported_places } }
{
    match reported {
        None => Ok(()),
        Some(_) => lead.reserve_reported(id),
    }
}

/// Writes what is recorded and led. An answer more is written alone, and it alone may fail.
#[inline(always)]
fn write(
    space: &mut Space,
    lead: &mut Lead,
    id: InstanceId,
    entry: Recorded,
    led: LeadChange,
) -> Result<(), AllocError>
    requires record { HasRecordPlace entry space.old id }
    requires led { HasLeadPlace led lead.old.places id }
    ensures records { OnOk result (space.new ≡ record space.old { records = with_entry space.old.records id (cond (adds_answer led) None (entry_of id (record_at space.old id) entry)); room = space.new.room }) }
    ensures leads { OnOk result (lead.new ≡ record lead.old { leads = with_led lead.old.leads id (led_of (get lead.old.leads id) led) }) }
    ensures records_stay { OnErr result (space.new ≡ space.old) }
    ensures leads_stay { OnErr result (lead.new ≡ lead.old) }
    ensures succeeds { adds_answer led ≡ false → IsOk result }
{
    match led {
        LeadChange::Stays => {
            write_record(space, id, entry);
            Ok(())
        }
        LeadChange::Leads(led) => {
            write_record(space, id, entry);
            lead.lead(id, led);
            Ok(())
        }
        LeadChange::PreAccepted(from, attrs) => lead.add_pre_accepted(id, from, attrs),
        LeadChange::Accepted(from) => lead.add_accepted(id, from),
        LeadChange::Ends => {
            write_record(space, id, entry);
            lead.end(id);
            Ok(())
        }
    }
}

#[inline(always)]
fn write_record(space: &mut Space, id: InstanceId, entry: Recorded)
    requires { HasRecordPlace entry space.old id }
    ensures { space.new ≡ record space.old { records = with_entry space.old.records id (entry_of id (record_at space.old id) entry); room = space.new.room } }
{
    match entry {
        Recorded::Stays => (),
        Recorded::Joins(ballot) => space.join_ballot(id, ballot),
        Recorded::PreAccepts(ballot, decree) => space.vote_pre(id, ballot, decree),
        Recorded::Accepts(ballot, decree) => space.vote_accept(id, ballot, decree),
        Recorded::Commits(decree) => space.commit(id, decree),
        Recorded::Settles => space.settle(id),
    }
}
