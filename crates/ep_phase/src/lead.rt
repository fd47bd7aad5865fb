//! What a replica leads.

ghost use Rattle.std.specs.Prelude.{◌≡◌, true, Some, None, IfOk, OnOk, OnErr};
ghost use Rattle.std.specs.Option.{option_copied};
ghost use Rattle.std.specs.FinSet as set;
ghost use Rattle.ep_rules.specs.Maps.{none, get};
ghost use Rattle.ep_rules.specs.States.{or_zero};
ghost use Rattle.ep_space.specs.Held.{HasPlace};
ghost use Rattle.ep_rules.specs.States.{with_led};
ghost use Rattle.ep_phase.specs.Changes.{or_as_before, with_pre_accepted, with_accepted};
ghost use Rattle.ep_phase.specs.Leads.{with_lead, with_reported};

use ep_base::{Attrs, InstanceId, ReplicaId};
use ep_rules::LedInstance;
use ep_space::Table;
use std::alloc::{AllocError, Global};
use std::marker::Model;

/// What a replica leads, instance by instance, and the greatest counters that Nacks named.
/// An instance first gets a place for the one, or for the other, which takes memory; both are then written without. An answer more may
/// take memory.
pub struct Lead {
    leads: Table<LedInstance>,
    reported: Table<u16>,
}

// (by hand, so that no crate above proves again how the parts are dropped)
impl Drop for Lead {
    fn drop(self) {
        let Lead { leads, reported } = self;
        drop(leads);
        drop(reported);
    }
}

impl Model for Lead {
    ghost use Rattle.ep_phase.specs.Leads.{Lead, leads_code};

    ghost Value = { Lead };

    ghost coded = { leads_code };

    ghost view = { λ l. record { leads = l.leads.held; reported = l.reported.held; places = l.leads.places; reported_places = l.reported.places } };
}

impl Lead {
    /// Nothing is led, and no Nack named a counter.
    pub fn new(alloc: Global) -> Lead
        ensures { result ≡ record { leads = none; reported = none; places = set.empty; reported_places = set.empty } }
    {
        Lead {
            leads: Table::new(alloc),
            reported: Table::new(alloc),
        }
    }

    /// All of it, copied.
    pub fn duplicate(&self, alloc: Global) -> Result<Lead, AllocError>
        ensures { IfOk result (λ l. l ≡ self.now) }
    {
        let leads = self.leads.duplicate(alloc)?;
        let reported = self.reported.duplicate(alloc)?;
        Ok(Lead { leads, reported })
    }

    /// Makes a place for what is led in the instance, if it has none.
    pub fn reserve(&mut self, id: InstanceId) -> Result<(), AllocError>
        ensures ok { OnOk result (self.new ≡ record self.old { places = set.insert self.old.places id }) }
        ensures place { OnOk result (HasPlace self.new.places id) }
        ensures err { OnErr result (self.new ≡ self.old) }
    {
        self.leads.reserve(id)
    }

    /// Makes a place for the counter of the instance, if it has none.
    pub fn reserve_reported(&mut self, id: InstanceId) -> Result<(), AllocError>
        ensures ok { OnOk result (self.new ≡ record self.old { reported_places = set.insert self.old.reported_places id }) }
        ensures place { OnOk result (HasPlace self.new.reported_places id) }
        ensures err { OnErr result (self.new ≡ self.old) }
    {
        self.reported.reserve(id)
    }

    // What is led.

    /// What is led in the instance, if something is.
    pub fn get(&self, id: InstanceId) -> Option<&LedInstance>
        ensures { option_copied result ≡ get self.now.leads id }
    {
        self.leads.get(id)
    }

    /// A copy of what is led in the instance: what a later `put_back` may put back.
    pub fn copy(&self, alloc: Global, id: InstanceId) -> Result<Option<LedInstance>, AllocError>
        ensures { IfOk result (λ o. o ≡ get self.now.leads id) }
    {
        match self.get(id) {
            None => Ok(None),
            Some(led) => Ok(Some(led.copy(alloc)?)),
        }
    }

    /// Puts back what was led earlier, or that nothing was, and gives what is led now. It takes no memory.
    pub fn put_back(&mut self, id: InstanceId, earlier: Option<LedInstance>) -> Option<LedInstance>
        requires { HasPlace self.old.places id }
        ensures old { result ≡ get self.old.leads id }
        ensures new { self.new ≡ with_lead self.old id earlier }
    {
        self.leads.put_back(id, earlier)
    }

    /// Leads this from now on. It takes no memory.
    pub fn lead(&mut self, id: InstanceId, led: LedInstance)
        requires { HasPlace self.old.places id }
        ensures { self.new ≡ with_lead self.old id (Some led) }
    {
        self.leads.write(id, Some(led));
    }

    /// One more replica pre-accepted with these attributes, if this is phase 1. When out of memory, nothing has changed.
    #[inline(always)]
    pub fn add_pre_accepted(
        &mut self,
        id: InstanceId,
        from: ReplicaId,
        attrs: Attrs,
    ) -> Result<(), AllocError>
        requires { HasPlace self.old.places id }
        ensures ok { OnOk result (self.new ≡ record self.old { leads = with_led self.old.leads id (with_pre_accepted from attrs (get self.old.leads id)) }) }
        ensures err { OnErr result (self.new ≡ self.old) }
    {
        add_pre_accepted(&mut self.leads, id, from, attrs)
    }

    /// One more replica accepted, if this is the accept phase. When out of memory, nothing has changed.
    pub fn add_accepted(&mut self, id: InstanceId, from: ReplicaId) -> Result<(), AllocError>
        requires { HasPlace self.old.places id }
        ensures ok { OnOk result (self.new ≡ record self.old { leads = with_led self.old.leads id (with_accepted from (get self.old.leads id)) }) }
        ensures err { OnErr result (self.new ≡ self.old) }
    {
        add_accepted(&mut self.leads, id, from)
    }

    /// Leads the instance no longer. It takes no memory, and needs no place.
    #[inline(always)]
    pub fn end(&mut self, id: InstanceId)
        ensures { self.new ≡ with_lead self.old id None }
    {
        self.leads.clear(id);
    }

    // The counters that Nacks named.

    /// The greatest counter that a Nack named for the instance, 0 where none did.
    pub fn reported(&self, id: InstanceId) -> u16
        ensures { result ≡ or_zero (get self.now.reported id) }
    {
        match self.earlier_reported(id) {
            None => 0,
            Some(counter) => counter,
        }
    }

    /// That counter, or none where no Nack named one: what a later `put_back_reported` may put back.
    pub fn earlier_reported(&self, id: InstanceId) -> Option<u16>
        ensures { result ≡ get self.now.reported id }
    {
        self.reported.get(id).copied()
    }

    /// Keeps this counter. It takes no memory.
    pub fn set_reported(&mut self, id: InstanceId, counter: u16)
        requires { HasPlace self.old.reported_places id }
        ensures { self.new ≡ with_reported self.old id (Some counter) }
    {
        self.reported.write(id, Some(counter));
    }

    /// Puts back the counter that was there earlier, or that there was none. It takes no memory.
    pub fn put_back_reported(&mut self, id: InstanceId, earlier: Option<u16>)
        requires { HasPlace self.old.reported_places id }
        ensures { self.new ≡ with_reported self.old id earlier }
    {
        self.reported.write(id, earlier);
    }
}

// What is led is taken out, and put back with the answer, or as it was.
#[inline(always)]
fn add_pre_accepted(
    leads: &mut Table<LedInstance>,
    id: InstanceId,
    from: ReplicaId,
    attrs: Attrs,
) -> Result<(), AllocError>
    requires { HasPlace leads.old.places id }
    ensures ok { OnOk result (leads.new ≡ record { held = with_led leads.old.held id (with_pre_accepted from attrs (get leads.old.held id)); places = leads.old.places }) }
    ensures err { OnErr result (leads.new ≡ leads.old) }
{
    let mut led = leads.put_back(id, None);
    let outcome = count_pre_accepted(&mut led, from, attrs);
    leads.write(id, led);
    outcome
}

fn count_pre_accepted(
    led: &mut Option<LedInstance>,
    from: ReplicaId,
    attrs: Attrs,
) -> Result<(), AllocError>
    ensures ok { OnOk result (led.new ≡ or_as_before led.old (with_pre_accepted from attrs led.old)) }
    ensures err { OnErr result (led.new ≡ led.old) }
{
    match led {
        Some(LedInstance::Proposing(_, _, answers)) => answers.add(from, attrs),
        _ => Ok(()),
    }
}

fn add_accepted(
    leads: &mut Table<LedInstance>,
    id: InstanceId,
    from: ReplicaId,
) -> Result<(), AllocError>
    requires { HasPlace leads.old.places id }
    ensures ok { OnOk result (leads.new ≡ record { held = with_led leads.old.held id (with_accepted from (get leads.old.held id)); places = leads.old.places }) }
    ensures err { OnErr result (leads.new ≡ leads.old) }
{
    let mut led = leads.put_back(id, None);
    let outcome = count_accepted(&mut led, from);
    leads.write(id, led);
    outcome
}

fn count_accepted(led: &mut Option<LedInstance>, from: ReplicaId) -> Result<(), AllocError>
    ensures ok { OnOk result (led.new ≡ or_as_before led.old (with_accepted from led.old)) }
    ensures err { OnErr result (led.new ≡ led.old) }
{
    match led {
        Some(LedInstance::Accepting(_, answers)) => answers.add(from, ()),
        _ => Ok(()),
    }
}
