//! The state of a replica, and its step.

ghost use Rattle.std.specs.Prelude.{◌≡◌, ◌<◌, ◌≤◌, ◌+◌, ℕ, true, None, Some, Ok, IfOk, IfErr, IfSome, IsErr, OnErr};
ghost use Rattle.ep_phase.specs.Changes.{change_of, sends};
ghost use Rattle.ep_base.specs.Instances.{instance_of};
ghost use Rattle.ep_base.specs.Versions.{highest_for};
ghost use Rattle.ep_phase.specs.InstanceViews.{view_of};
ghost use Rattle.ep_rules.specs.States.{free_number};
ghost use Rattle.ep_rules.specs.Steps.{sent_from};
ghost use Rattle.ep_journal.specs.Events.{lacking, AreSpelled};
ghost use Rattle.ep_journal.specs.Inputs.{outcome_at, IsWritable};
ghost use Rattle.ep_journal.specs.Refused.{IsRefused};
ghost use Rattle.ep_journal.specs.Standing.{IsSound};
ghost use Rattle.ep_journal.specs.Stepping.{standing_of, asked_of, heard_of, settling_at, IsAsked, IsLet, Moves, Steps};
ghost use Rattle.ep_journal.specs.declared.event.Event.{Event as Happening};
ghost use Rattle.ep_journal.specs.declared.mark.Mark.{Mark as Marks};
ghost use Rattle.ep_journal.specs.declared.step_fault.StepFault.TheVariants as fault;

use crate::deciding::{decide, is_settled_by};
use crate::event::Event;
use crate::execute::execute;
use crate::executions::Executions;
use crate::frames::{Frames, written};
use crate::input::Input;
use crate::mark::Mark;
use crate::screen::{screen_frame, screen_instance, screen_request, screen_spared};
use crate::step_fault::StepFault;
use crate::taken::Taken;
use crate::versioned::check_version;
use ep_base::{Command, InstanceId, ReplicaId, Version, spared_by};
use ep_exec::{Executed, Store};
use ep_frame::{Frame, FrameView, Kind};
use ep_phase::{InstanceView, Lead, next_instance};
use ep_space::{Space, SpaceFull};
use std::alloc::{AllocError, Global};

/// The state of a replica: what it recorded, leads, has executed and stores.
#[derive(Drop)]
pub struct ReplicaState {
    pub me: ReplicaId,
    pub space: Space,
    pub lead: Lead,
    pub executed: Executed,
    pub store: Store,
}

/// What a replica is, without its map.
#[derive(Drop)]
pub struct Rest {
    pub space: Space,
    pub lead: Lead,
    pub executed: Executed,
}

/// The next instance for the command: `SpaceFull` if the least free number is above the highest that the version has for it.
#[inline(always)]
fn instance_for(space: &Space, me: ReplicaId, command: &Command) -> Result<InstanceId, SpaceFull>
    ensures ok { IfOk result (λ i. (n : ℕ) × (free_number space.now.records me ≡ Some n) × (n < highest_for space.now.version command.now) × (i ≡ instance_of me (n + 1))) }
    ensures full { IsErr result → (n : ℕ) → free_number space.now.records me ≡ Some n → highest_for space.now.version command.now ≤ n }
{
    let id = next_instance(space, me)?;
    if id.number() > space.version().highest_for(command) {
        return Err(SpaceFull);
    }
    Ok(id)
}

impl ReplicaState {
    /// A copy of the state, with no room for executions yet.
    pub fn copy(&self, alloc: Global) -> Result<ReplicaState, AllocError>
        ensures { IfOk result (λ p. standing_of p ≡ standing_of self.now) }
    {
        let executed = self.executed.duplicate(alloc)?;
        let Ok(store) = self.store.copy() else {
            drop(executed);
            return Err(AllocError);
        };
        let Ok(lead) = self.lead.duplicate(alloc) else {
            drop(executed);
            drop(store);
            return Err(AllocError);
        };
        let Ok(space) = self.space.duplicate(alloc) else {
            drop(executed);
            drop(store);
            drop(lead);
            return Err(AllocError);
        };
        Ok(ReplicaState {
            me: self.me,
            space,
            lead,
            executed,
            store,
        })
    }

    /// The map, and the rest.
    pub fn into_store(self) -> (Store, Rest)
        ensures { result.0 ≡ self.store }
    {
        let ReplicaState {
            me: _,
            space,
            lead,
            executed,
            store,
        } = self;
        let rest = Rest {
            space,
            lead,
            executed,
        };
        (store, rest)
    }

    /// Takes the step of an event with this mark: what came of it; or why it is refused. `None` as the mark says that the
    /// number or the stamp would pass its limit.
    #[inline(always)]
    pub fn step(
        &mut self,
        alloc: Global,
        event: &Event,
        mark: Option<Mark>,
    ) -> Result<Taken, StepFault>
        requires sound { IsSound (standing_of self.old) }
        requires numbered { IfSome mark (λ m. 1 ≤ m.number) }
        ensures { Steps (standing_of self.old) event.now mark result (standing_of self.new) }
    {
        check_version(self.space.version(), event)?;
        match event {
            Event::Propose {
                client,
                request,
                command,
                seen: _,
                spared,
            } => {
                screen_request(*client, *request, command)?;
                screen_spared(self.space.size(), self.me, *spared)?;
                self.propose(alloc, command, *spared, mark)
            }
            Event::Handle(frame) => self.handle(alloc, frame, mark),
            Event::GiveUp(id) => {
                screen_instance(self.space.size(), *id)?;
                self.ask(alloc, *id, Input::GiveUp, mark)
            }
            Event::Recover(id) => {
                screen_instance(self.space.size(), *id)?;
                self.ask(alloc, *id, Input::Recover, mark)
            }
            Event::Execute(root) => {
                screen_instance(self.space.size(), *root)?;
                self.execute(alloc, *root, mark)
            }
        }
    }

    /// Proposes the command in the next instance; the proposal names this replica as the spared one, if it names one.
    #[inline(always)]
    fn propose(
        &mut self,
        alloc: Global,
        command: &Command,
        named: Option<ReplicaId>,
        mark: Option<Mark>,
    ) -> Result<Taken, StepFault>
        requires sound { IsSound (standing_of self.old) }
        requires numbered { IfSome mark (λ m. 1 ≤ m.number) }
        requires through { (client : ℕ) × (request : ℕ) × (seen : ℕ) × IsLet (standing_of self.old) (Happening.Propose client request command.now seen named) }
        ensures { (client : ℕ) (request : ℕ) (seen : ℕ) → IsLet (standing_of self.old) (Happening.Propose client request command.now seen named) → Steps (standing_of self.old) (Happening.Propose client request command.now seen named) mark result (standing_of self.new) }
    {
        let Some(mark) = mark else {
            return Err(StepFault::StampFull);
        };
        let id = instance_for(&self.space, self.me, command)?;
        let spared = spared_by(self.space.size(), self.me, named);
        let input = Input::Start(command, &spared);
        self.ask(alloc, id, input, Some(mark))
    }

    /// Handles the frame, if it is for this replica and all that it names is of the cluster.
    #[inline(always)]
    fn handle(
        &mut self,
        alloc: Global,
        frame: &Frame,
        mark: Option<Mark>,
    ) -> Result<Taken, StepFault>
        requires sound { IsSound (standing_of self.old) }
        requires numbered { IfSome mark (λ m. 1 ≤ m.number) }
        requires versioned { lacking self.old.space.version (Happening.Handle frame.now) ≡ None }
        ensures { Steps (standing_of self.old) (Happening.Handle frame.now) mark result (standing_of self.new) }
    {
        let view = frame.view();
        screen_frame(self.space.size(), self.me, &view)?;
        let Some(mark) = mark else {
            return Err(StepFault::StampFull);
        };
        let id = view.instance();
        if self.settles(id, &view) {
            return self.settle(alloc, id);
        }
        self.ask(alloc, id, Input::Message(&view), Some(mark))
    }

    /// Whether the frame commits in the instance what the replica voted for there, as most Commits do.
    #[inline(always)]
    fn settles(&self, id: InstanceId, frame: &FrameView<'_>) -> bool
        ensures { result ≡ true → heard_of self.now id frame.now ≡ Ok (id, settling_at self.now id) }
    {
        match frame.kind() {
            Kind::Commit => {
                let cell = InstanceView::of(&self.space, &self.lead, self.me, id);
                is_settled_by(&cell, frame)
            }
            _ => false,
        }
    }

    /// Commits in the instance what the replica voted for there.
    #[inline(never)]
    fn settle(&mut self, alloc: Global, id: InstanceId) -> Result<Taken, StepFault>
        ensures ok { IfOk result (λ t. (mark : Marks) → Moves (Ok (id, settling_at self.old id)) mark self.old t self.new) }
        ensures refused { IfErr result (λ e. e ≡ fault.Memory) }
        ensures err { OnErr result (standing_of self.new ≡ standing_of self.old) }
    {
        let Ok(()) = self.space.reserve(id) else {
            return Err(StepFault::Memory);
        };
        self.space.settle(id);
        self.lead.end(id);
        Ok(Taken {
            frames: Frames::none(alloc),
            done: Executions::none(alloc),
        })
    }

    /// Executes the root, and before it all that it depends on.
    fn execute(
        &mut self,
        alloc: Global,
        root: InstanceId,
        mark: Option<Mark>,
    ) -> Result<Taken, StepFault>
        requires sound { IsSound (standing_of self.old) }
        requires through { IsLet (standing_of self.old) (Happening.Execute root) }
        ensures { Steps (standing_of self.old) (Happening.Execute root) mark result (standing_of self.new) }
    {
        let Some(_mark) = mark else {
            return Err(StepFault::StampFull);
        };
        let done = execute(
            alloc,
            &self.space,
            &mut self.executed,
            &mut self.store,
            root,
        )?;
        Ok(Taken {
            frames: Frames::none(alloc),
            done,
        })
    }

    /// Does what is asked of the instance, if there is a mark.
    #[inline(always)]
    fn ask(
        &mut self,
        alloc: Global,
        id: InstanceId,
        input: Input<'_>,
        mark: Option<Mark>,
    ) -> Result<Taken, StepFault>
        requires sound { IsSound (standing_of self.old) }
        requires numbered { IfSome mark (λ m. 1 ≤ m.number) }
        requires asked { (event : Happening) × IsAsked (standing_of self.old) event (asked_of self.old id input) }
        ensures { (event : Happening) → IsAsked (standing_of self.old) event (asked_of self.old id input.entry) → Steps (standing_of self.old) event mark result (standing_of self.new) }
    {
        let Some(mark) = mark else {
            return Err(StepFault::StampFull);
        };
        self.change(alloc, id, input, mark)
    }

    /// Does what is asked of the instance: decides, writes the frames, and puts the change in place. All that may fail comes before
    /// anything changes.
    fn change(
        &mut self,
        alloc: Global,
        id: InstanceId,
        input: Input<'_>,
        mark: Mark,
    ) -> Result<Taken, StepFault>
        requires numbered { 1 ≤ mark.number }
        requires writable { IsWritable self.old.space.version self.old.me (asked_of self.old id input) }
        ensures ok { IfOk result (λ t. Moves (asked_of self.old id input.entry) mark self.old t self.new) }
        ensures refused { IfErr result (λ e. IsRefused (asked_of self.old id input.entry) e) }
        ensures err { OnErr result (standing_of self.new ≡ standing_of self.old) }
    {
        let cell = InstanceView::of(&self.space, &self.lead, self.me, id);
        let change = decide(alloc, &cell, input)?;
        let Ok(frames) = written(alloc, &cell, self.space.version(), mark, &change) else {
            drop(change);
            return Err(StepFault::Memory);
        };
        let Ok(()) = change.reserve(&mut self.space, &mut self.lead, id) else {
            drop(change);
            drop(frames);
            return Err(StepFault::Memory);
        };
        change.install(&mut self.space, &mut self.lead, id)?;
        Ok(Taken {
            frames,
            done: Executions::none(alloc),
        })
    }
}
