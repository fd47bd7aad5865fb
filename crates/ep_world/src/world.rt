//! A world of replicas.

ghost use Rattle.std.specs.Prelude.{◌≡◌};

use crate::advance::advance;
use crate::notes::Notes;
use crate::place::Place;
use crate::refused::Refused;
use crate::replicas::{
    all_opened, entry_at, find, frame_at, into_journals, numbered_place, receiver,
};
use crate::world_event::WorldEvent;
use ep_base::{ReplicaId, Size, Version};
use ep_frame::Frame;
use ep_journal::{Beginning, Entry, Event, Journals, Opening, Refusal};
use ep_replica::Replica;
use std::alloc::{AllocError, Global};
use std::marker::Model;

/// A world of replicas: always a run of the protocol, in which each handled message was sent before.
#[derive(Drop)]
pub struct World {
    size: Size,
    replicas: Vec<Replica>,
    notes: Notes,
    alloc: Global,
}

impl Model for World {
    ghost use Rattle.ep_world.specs.Played.{Played, played_code, IsWorld};
    ghost use Rattle.ep_world.specs.Replicas.{AreAll, world_of};

    ghost Value = { Played };

    ghost coded = { played_code };

    ghost view = { λ w. world_of w.size w.replicas.items w.notes.steps.items w.notes.messages.items };

    ghost invariant = { λ w. AreAll w.size w.replicas.items × IsWorld (world_of w.size w.replicas.items w.notes.steps.items w.notes.messages.items) };
}

impl World {
    ghost use Rattle.std.specs.Prelude.{◌≡◌, ◌<◌, ◌≤◌, ◌⊎◌, ℕ, List, [], Some, None, length, option_copied, IsSome, IfSome, IfOk, IfErr, OnOk, OnErr};
    ghost use Rattle.ep_base.specs.Quorums.{size};
    ghost use Rattle.ep_base.specs.Versions.{version_number};
    ghost use Rattle.ep_base.specs.declared.version_kind.VersionKind.TheVariants.{V2};
    ghost use Rattle.ep_journal.specs.Openings.{no_opening, opens};
    ghost use Rattle.ep_rules.specs.Audits.{IsAccepted};
    ghost use Rattle.ep_rules.specs.Verdicts.{AreOwn};
    ghost use Rattle.ep_rules.specs.declared.receipt.Receipt.{Receipt};
    ghost use Rattle.ep_frame.specs.Spelling.{IsFrame};
    ghost use Rattle.ep_world.specs.Played.{collected, entries_in, replica_in, journals_in, message_in, numbered, IsPlayed};
    ghost use Rattle.ep_world.specs.Playing.{asked, Happens, IsNotEnabled, Happen, Ends};
    ghost use Rattle.ep_journal.specs.declared.event.Event.TheVariants.{Handle};
    ghost use Rattle.ep_world.specs.declared.world_event.WorldEvent.{WorldEvent as Asked};
    ghost use Rattle.ep_world.specs.declared.world_event.WorldEvent.TheVariants.{Deliver};
    ghost use Rattle.ep_world.specs.Safe.{Agree, Keeps, WereProposed, Depend, Linearizable};

    /// A world of this many replicas, of version 2, before any event.
    pub fn new(alloc: Global, cluster: Size) -> Result<World, AllocError>
        ensures version { IfOk result (λ w. w.version ≡ V2) }
        ensures faults { IfOk result (λ w. w.faults ≡ cluster) }
        ensures opening { IfOk result (λ w. w.opening ≡ no_opening) }
        ensures entries { IfOk result (λ w. (r : ℕ) → entries_in w r ≡ []) }
        ensures steps { IfOk result (λ w. w.steps ≡ []) }
        ensures messages { IfOk result (λ w. w.messages ≡ []) }
    {
        World::opened(alloc, cluster, &Beginning::new(alloc, Version::V2))
    }

    /// A world of this many replicas, all of which begin so, in version 2 or 3, before any event.
    pub fn opened(alloc: Global, cluster: Size, beginning: &Beginning) -> Result<World, AllocError>
        requires { 2 ≤ version_number beginning.now.version }
        ensures version { IfOk result (λ w. w.version ≡ beginning.now.version) }
        ensures faults { IfOk result (λ w. w.faults ≡ cluster) }
        ensures opening { IfOk result (λ w. w.opening ≡ beginning.now.opening) }
        ensures entries { IfOk result (λ w. (r : ℕ) → entries_in w r ≡ []) }
        ensures steps { IfOk result (λ w. w.steps ≡ []) }
        ensures messages { IfOk result (λ w. w.messages ≡ []) }
    {
        let _opening = beginning.opening();
        let notes = Notes::new(alloc)?;
        let replicas = all_opened(alloc, cluster, beginning)?;
        Ok(World {
            size: cluster,
            replicas,
            notes,
            alloc,
        })
    }

    /// Plays one event: one step of the rule book's world. What is refused leaves the world as it was; what was committed stays so.
    pub fn step(&mut self, event: WorldEvent) -> Result<(), Refusal>
        ensures ok { OnOk result (Happens self.old event self.new) }
        ensures refused { IfErr result (λ cause. IsNotEnabled self.old event cause) }
        ensures err { OnErr result (self.new ≡ self.old) }
        ensures permanence { Keeps self.old self.new }
    {
        match event {
            WorldEvent::Propose {
                replica,
                client,
                request,
                command,
                seen,
                spared,
            } => self.take(
                replica,
                Event::Propose {
                    client,
                    request,
                    command,
                    seen,
                    spared,
                },
            ),
            WorldEvent::GiveUp { replica, instance } => self.take(replica, Event::GiveUp(instance)),
            WorldEvent::Recover { replica, instance } => {
                self.take(replica, Event::Recover(instance))
            }
            WorldEvent::Execute { replica, instance } => {
                self.take(replica, Event::Execute(instance))
            }
            WorldEvent::Deliver(message) => self.deliver(message),
        }
    }

    /// Gives the message of this number to its receiver: as `step` does, of `Deliver`.
    #[inline(always)]
    pub fn deliver(&mut self, message: u64) -> Result<(), Refusal>
        ensures ok { OnOk result (Happens self.old (Deliver message) self.new) }
        ensures refused { IfErr result (λ cause. IsNotEnabled self.old (Deliver message) cause) }
        ensures err { OnErr result (self.new ≡ self.old) }
        ensures permanence { Keeps self.old self.new }
    {
        let (to, frame) = self.receive(message)?;
        self.take(to, Event::Handle(frame))
    }

    /// The replica that handles a message, and the message's frame.
    #[inline(always)]
    fn receive(&self, message: u64) -> Result<(ReplicaId, Frame), Refusal>
        ensures ok { IfOk result (λ p. asked self.now (Deliver message) ≡ Some (p.0, Handle p.1)) }
        ensures refused { IfErr result (λ cause. IsNotEnabled self.now (Deliver message) cause) }
    {
        let Some(frame) = self.message(message) else {
            return Err(Refusal::NoSuchMessage(message));
        };
        let frame = frame.clone()?;
        Ok((receiver(&frame), frame))
    }

    /// The replica takes what some event of the world asks of it.
    #[inline(always)]
    fn take(&mut self, replica: ReplicaId, taken: Event) -> Result<(), Refusal>
        requires { (event : Asked) × (asked self.old event ≡ Some (replica, taken)) }
        ensures ok { OnOk result ((event : Asked) → asked self.old event ≡ Some (replica, taken) → Happens self.old event self.new) }
        ensures refused { IfErr result (λ cause. (event : Asked) → asked self.old event ≡ Some (replica, taken) → IsNotEnabled self.old event cause) }
        ensures err { OnErr result (self.new ≡ self.old) }
        ensures permanence { Keeps self.old self.new }
    {
        match advance(
            self.size,
            &mut self.replicas,
            &mut self.notes,
            replica,
            taken,
        ) {
            Ok(()) => Ok(()),
            Err(fault) => Err(Refusal::Step(fault)),
        }
    }

    /// Plays a copy of the event.
    fn step_copy(&mut self, event: &WorldEvent) -> Result<(), Refusal>
        ensures ok { OnOk result (Happens self.old event.now self.new) }
        ensures refused { IfErr result (λ cause. IsNotEnabled self.old event.now cause) }
        ensures err { OnErr result (self.new ≡ self.old) }
    {
        let event = event.copy(self.alloc)?;
        self.step(event)
    }

    /// Plays events in order, up to the first that isn't enabled.
    ///
    /// Whatever was played, by any number of calls, and whatever this call answers, the world left is a run: no two
    /// replicas commit different commands or attributes in an instance; what was committed stays so; a committed
    /// command other than a no-op was proposed there, by the instance's leader; of two interfering committed commands
    /// one depends on the other; and the run is linearizable, from the opening's map on, by its commands in the order of their
    /// first executions.
    pub fn play(&mut self, events: &[WorldEvent]) -> Result<(), Refused>
        ensures ok { OnOk result (Happen self.old events.now self.new) }
        ensures refused { IfErr result (λ refused. Ends self.old events.now refused self.new) }
        ensures agreement { Agree self.new }
        ensures permanence { Keeps self.old self.new }
        ensures validity { WereProposed self.new }
        ensures dependency { Depend self.new }
        ensures linearizable { Linearizable self.new }
    {
        let played = self.play_all(events);
        self.is_safe();
        played
    }

    /// Plays events in order, up to the first that isn't enabled.
    fn play_all(&mut self, events: &[WorldEvent]) -> Result<(), Refused>
        ensures ok { OnOk result (Happen self.old events.now self.new) }
        ensures refused { IfErr result (λ refused. Ends self.old events.now refused self.new) }
    {
        for (index, event) in events.iter().enumerate() {
            match self.step_copy(event) {
                Ok(()) => {}
                Err(cause) => return Err(Refused { index, cause }),
            }
        }
        Ok(())
    }

    /// The cluster's size.
    pub fn size(&self) -> Size
        ensures { result ≡ self.now.faults }
    {
        self.size
    }

    /// The version of all replicas.
    pub fn version(&self) -> Version
        ensures { result ≡ self.now.version }
    {
        self.first().version()
    }

    /// What all replicas opened with; nothing, where the world is of version 2.
    pub fn opening(&self) -> &Opening
        ensures { result.now ≡ self.now.opening }
    {
        self.first().opening()
    }

    /// The first replica.
    fn first(&self) -> &Replica
        ensures version { result.now.version ≡ self.now.version }
        ensures opening { result.now.opening ≡ self.now.opening }
    {
        let _size = self.size;
        &self.replicas.as_slice()[0]
    }

    /// Replica and entry number of each step so far, in order. The world is the run of these entries.
    pub fn steps(&self) -> &[(ReplicaId, u32)]
        ensures value { result.now ≡ self.now.steps }
        ensures run { IsPlayed self.now }
    {
        self.notes.steps.as_slice()
    }

    /// Where each message stands that was sent so far, in order of sending.
    pub fn messages(&self) -> &[Place]
        ensures value { result.now ≡ self.now.messages }
        ensures run { IsPlayed self.now }
    {
        self.notes.messages.as_slice()
    }

    /// The frame of a message, which are numbered from 1.
    pub fn message(&self, message: u64) -> Option<&Frame>
        ensures value { option_copied result ≡ message_in self.now message }
        ensures none { result ≡ None → (message ≡ 0) ⊎ (length self.now.messages < message) }
        ensures frame { IfSome result (λ b. IsFrame b.now) }
    {
        let Some(place) = numbered_place(self.notes.messages.as_slice(), message) else {
            return None;
        };
        frame_at(self.replicas.as_slice(), place)
    }

    /// The entry of this number, from 1, of the replica.
    pub fn entry(&self, replica: ReplicaId, number: u32) -> Option<&Entry>
        ensures { option_copied result ≡ numbered (entries_in self.now replica) number }
    {
        entry_at(self.replicas.as_slice(), replica, number)
    }

    /// A replica of the world.
    pub fn replica(&self, replica: ReplicaId) -> Option<&Replica>
        ensures some { IfSome result (λ k. (replica < size self.now.faults) × (k.now ≡ replica_in self.now replica)) }
        ensures none { result ≡ None → size self.now.faults ≤ replica }
    {
        find(self.replicas.as_slice(), replica)
    }

    /// Whatever was played, no two replicas commit different commands or attributes in an instance; a committed command
    /// other than a no-op was proposed there; of two interfering committed commands one depends on the other; and the
    /// run is linearizable: a law, which costs nothing to call.
    pub fn is_safe(&self)
        ensures agreement { Agree self.now }
        ensures validity { WereProposed self.now }
        ensures dependency { Depend self.now }
        ensures linearizable { Linearizable self.now }
    {
        let _faults = self.size.faults();
    }

    /// The journals of a world, with any receipts of which each is some replica's own, are accepted by the audit: a law, which costs nothing to call.
    pub fn journals_are_accepted(&self)
        ensures { (receipts : List Receipt) → AreOwn (opens self.now.opening) self.now.faults (journals_in self.now) receipts → IsAccepted (opens self.now.opening) self.now.faults (journals_in self.now) receipts }
    {
        let _size = self.size;
    }

    /// The journals alone.
    pub fn into_journals(self, alloc: Global) -> Result<Journals, AllocError>
        ensures { IfOk result (λ j. j ≡ collected self) }
    {
        let World {
            size: _,
            replicas,
            notes: _,
            alloc: _,
        } = self;
        match Journals::new(into_journals(alloc, replicas)?) {
            Ok(journals) => Ok(journals),
            Err(_) => unreachable!(),
        }
    }
}
