//! Replays of scripts.

ghost use Rattle.std.specs.Prelude.{◌≡◌, ℕ, ◌+◌, ◌≤◌, ◌++◌, ◌∷◌, List, [], false, length, OnOk, IfOk};
ghost use Rattle.ep_rules.specs.Audits.{IsAccepted};
ghost use Rattle.ep_rules.specs.Counts.{AreOnce};
ghost use Rattle.ep_rules.specs.declared.receipt.Receipt.{Receipt as Reported};
ghost use Rattle.ep_journal.specs.Entries.{entry_of, journals_of};
ghost use Rattle.ep_journal.specs.Openings.{opens};
ghost use Rattle.ep_replica.specs.Receipts.{receipts_of};
ghost use Rattle.ep_world.specs.Played.{Played, journals_in};
ghost use Rattle.ep_world.specs.Playing.{Happens};
ghost use Rattle.ep_world.specs.declared.world_event.WorldEvent.{WorldEvent as Event};
ghost use Rattle.ep_replay.specs.Heads.{opening_of};
ghost use Rattle.ep_replay.specs.Outcome.{HasEnded, IsReplay};
ghost use Rattle.ep_replay.specs.Replays.{one_tried, was_sent};
ghost use Rattle.ep_replay.specs.Tables.{AreCounted, AreOwn, HasPlayed};
ghost use Rattle.ep_replay.specs.Reported.{instances_of};
ghost use Rattle.ep_replay.specs.declared.outcome.Outcome.TheVariants.{Took};

use crate::causes::list;
use crate::clients::Clients;
use crate::ended::Ended;
use crate::given::Given;
use crate::heads::begun;
use crate::outcome::Outcome;
use crate::replayed::Replayed;
use crate::tried::Tried;
use ep_base::{Command, ReplicaId};
use ep_journal::{Refusal, StepFault};
use ep_rules::Receipt;
use ep_script::{AgendaLine, Head, Line, Messages, Script};
use ep_world::{World, WorldEvent};
use std::alloc::{AllocError, Global};

/// The receipts of what the world's last step executed.
fn last_receipts(alloc: Global, world: &World) -> Result<Vec<Receipt>, AllocError>
    ensures exact { IfOk result (λ receipts. (w : Played) (event : Event) (h : Happens w event world.now) → receipts.items ≡ receipts_of h.replica (journals_in world.now h.replica) (entry_of h.entry)) }
    ensures own { IfOk result (λ receipts. AreOwn world.now receipts.items) }
{
    let Some((replica, entry)) = world.steps().last() else {
        return Ok(Vec::new(alloc));
    };
    let Some(replica) = world.replica(*replica) else {
        return Ok(Vec::new(alloc));
    };
    let receipts = replica.receipts_after(alloc, entry.saturating_sub(1))?;
    Ok(receipts)
}

/// Whether the world's last step executed something.
fn has_executed(world: &World) -> bool
    ensures { result ≡ false → (w : Played) (event : Event) (h : Happens w event world.now) → receipts_of h.replica (journals_in world.now h.replica) (entry_of h.entry) ≡ [] }
{
    let Some((replica, _)) = world.steps().last() else {
        return false;
    };
    let Some(replica) = world.replica(*replica) else {
        return false;
    };
    let Some(entry) = replica.journal().entries().last() else {
        return false;
    };
    !entry.done.as_slice().is_empty()
}

/// Adds the receipts of what the world's last step executed.
#[inline(always)]
fn collect(
    alloc: Global,
    world: &World,
    clients: &mut Clients,
    receipts: &mut Vec<Receipt>,
) -> Result<(), AllocError>
    ensures receipts { OnOk result ((w : Played) (event : Event) (h : Happens w event world.now) → receipts.new.items ≡ receipts.old.items ++ receipts_of h.replica (journals_in world.now h.replica) (entry_of h.entry)) }
    ensures counted { OnOk result ((ps : List ℕ) → AreCounted clients.old ps receipts.old.items → AreCounted clients.new ps receipts.new.items) }
    ensures own { OnOk result (AreOwn world.now receipts.old.items → AreOwn world.now receipts.new.items) }
{
    if !has_executed(world) {
        return Ok(());
    }
    let mut new = last_receipts(alloc, world)?;
    clients.note_all(new.as_slice())?;
    receipts.append(&mut new)?;
    Ok(())
}

/// Whether there is a message of this number.
fn was_sent(world: &World, message: u64) -> bool
    ensures { result ≡ was_sent world.now message }
{
    message >= 1 && message <= world.messages().len() as u64
}

/// The number that the next message has which is sent.
fn next_message(world: &World) -> u64
    ensures { result ≡ length world.now.messages + 1 }
{
    world.messages().len() as u64 + 1
}

/// The world's last step, whose messages are numbered from `first` on.
fn last_step(world: &World, first: u64) -> Outcome
    ensures { (w : Played) (event : Event) (h : Happens w event world.now) → result ≡ Took h.replica h.entry.number first }
{
    match world.steps().last() {
        Some((replica, entry)) => Outcome::Took {
            replica: *replica,
            entry: *entry,
            first,
        },
        None => Outcome::Refused(Refusal::Step(StepFault::OutOfRange)),
    }
}

/// Keeps an event of this line, and what came of it.
fn keep(
    tried: &mut Vec<Tried>,
    line: u32,
    event: WorldEvent,
    outcome: Outcome,
) -> Result<(), AllocError>
    ensures { OnOk result (tried.new.items ≡ tried.old.items ++ one_tried line event outcome ∷ []) }
{
    tried.push(Tried {
        line,
        event,
        outcome,
    })?;
    Ok(())
}

/// Plays the lines of a script in a world.
#[derive(Drop)]
pub(crate) struct Player {
    world: World,
    clients: Clients,
    given: Given,
    receipts: Vec<Receipt>,
    refused: Vec<(u32, Refusal)>,
    /// Whether each event that is tried is kept.
    keeps: bool,
    tried: Vec<Tried>,
    alloc: Global,
}

impl Player {
    ghost use Rattle.std.specs.Prelude.{◌≡◌, ◌≤◌, ◌-◌, ℕ, List, false, length, OnOk, IfOk};
    ghost use Rattle.ep_rules.specs.Audits.{IsAccepted};
    ghost use Rattle.ep_journal.specs.Entries.{journals_of};
    ghost use Rattle.ep_journal.specs.Openings.{opens};
    ghost use Rattle.ep_world.specs.Played.{collected};
    ghost use Rattle.ep_script.specs.declared.line.Line.TheVariants as asked;
    ghost use Rattle.ep_world.specs.declared.world_event.WorldEvent.TheVariants as event;
    ghost use Rattle.ep_replay.specs.Replays.{Asks, IsOpening, Tries, Gives, Plays, PlayAll, AreUngiven, above, proposal, with_proposer, with_given};
    ghost use Rattle.ep_replay.specs.Tables.{AreFlagged, AreOwn, IsPlayerOf, nothing, reported, LeadsTo};

    /// A player before any line, with the world of this head, that keeps each event that it tries, or doesn't.
    fn new(alloc: Global, head: &Head, keeps: bool) -> Result<Player, AllocError>
        ensures opening { IfOk result (λ s. IsOpening head.now (reported s nothing)) }
        ensures reports { IfOk result (λ s. IsPlayerOf s nothing) }
        ensures keeps { IfOk result (λ s. s.keeps ≡ keeps) }
    {
        let world = begun(alloc, head)?;
        Ok(Player {
            world,
            clients: Clients::new(alloc),
            given: Given::new(alloc),
            receipts: Vec::new(alloc),
            refused: Vec::new(alloc),
            keeps,
            tried: Vec::new(alloc),
            alloc,
        })
    }

    /// Tries an event of this line, and keeps it with what comes of it.
    fn attempt_kept(&mut self, line: u32, event: WorldEvent) -> Result<(), AllocError>
        ensures { OnOk result (LeadsTo (λ p q. Tries p line event q) self.old self.new) }
    {
        let first = next_message(&self.world);
        let copy = event.copy(self.alloc)?;
        match self.world.step(event) {
            Ok(()) => {
                collect(
                    self.alloc,
                    &self.world,
                    &mut self.clients,
                    &mut self.receipts,
                )?;
                let outcome = last_step(&self.world, first);
                keep(&mut self.tried, line, copy, outcome)?;
                Ok(())
            }
            Err(refusal) => {
                let cause = refusal;
                list(&mut self.refused, line, refusal)?;
                keep(&mut self.tried, line, copy, Outcome::Refused(cause))?;
                Ok(())
            }
        }
    }

    /// Tries an event of this line, and keeps nothing of it but its refusal.
    fn attempt_alone(&mut self, line: u32, event: WorldEvent) -> Result<(), AllocError>
        requires { self.old.keeps ≡ false }
        ensures { OnOk result (LeadsTo (λ p q. Tries p line event q) self.old self.new) }
    {
        match self.world.step(event) {
            Ok(()) => {
                collect(
                    self.alloc,
                    &self.world,
                    &mut self.clients,
                    &mut self.receipts,
                )?;
                Ok(())
            }
            Err(refusal) => {
                list(&mut self.refused, line, refusal)?;
                Ok(())
            }
        }
    }

    /// Tries an event of this line.
    #[inline(always)]
    fn attempt(&mut self, line: u32, event: WorldEvent) -> Result<(), AllocError>
        ensures { OnOk result (LeadsTo (λ p q. Tries p line event q) self.old self.new) }
    {
        if self.keeps {
            self.attempt_kept(line, event)
        } else {
            self.attempt_alone(line, event)
        }
    }

    /// The client's next request.
    fn propose(
        &mut self,
        line: u32,
        replica: ReplicaId,
        client: u32,
        command: &Command,
        spared: Option<ReplicaId>,
    ) -> Result<(), AllocError>
        ensures { OnOk result (LeadsTo (λ p q. Tries (with_proposer p client) line (proposal p replica client command.now spared) q) self.old self.new) }
    {
        let command = command.copy(self.alloc)?;
        let known = self.clients.count(client)?;
        let event = WorldEvent::Propose {
            replica,
            client,
            request: known.requests,
            command,
            seen: known.seen,
            spared,
        };
        self.attempt(line, event)?;
        Ok(())
    }

    /// Notes that the message was given, if there is one of this number.
    #[inline(always)]
    fn note(&mut self, message: u64) -> Result<(), AllocError>
        ensures { OnOk result (LeadsTo (λ p q. q ≡ with_given p message) self.old self.new) }
    {
        if !was_sent(&self.world, message) {
            return Ok(());
        }
        self.given.note(message as usize)?;
        Ok(())
    }

    /// Gives the message of this number.
    #[inline(always)]
    fn give(&mut self, line: u32, message: u64) -> Result<(), AllocError>
        ensures { OnOk result (LeadsTo (λ p q. Tries (with_given p message) line (event.Deliver message) q) self.old self.new) }
    {
        self.note(message)?;
        self.hand_over(line, message)?;
        Ok(())
    }

    /// Tries to give the message of this number to its receiver.
    #[inline(always)]
    fn hand_over(&mut self, line: u32, message: u64) -> Result<(), AllocError>
        ensures { OnOk result (LeadsTo (λ p q. Tries p line (event.Deliver message) q) self.old self.new) }
    {
        if self.keeps {
            self.hand_over_kept(line, message)
        } else {
            self.hand_over_alone(line, message)
        }
    }

    /// Tries to give the message of this number to its receiver, and keeps the event with what comes of it.
    #[inline(never)]
    fn hand_over_kept(&mut self, line: u32, message: u64) -> Result<(), AllocError>
        ensures { OnOk result (LeadsTo (λ p q. Tries p line (event.Deliver message) q) self.old self.new) }
    {
        self.attempt_kept(line, WorldEvent::Deliver(message))
    }

    /// Tries to give the message of this number to its receiver, and keeps nothing of it but its refusal. A delivery executes nothing, so it
    /// has no receipts. (An event of it would be moved from call to call.)
    #[inline(always)]
    fn hand_over_alone(&mut self, line: u32, message: u64) -> Result<(), AllocError>
        requires { self.old.keeps ≡ false }
        ensures { OnOk result (LeadsTo (λ p q. Tries p line (event.Deliver message) q) self.old self.new) }
    {
        match self.world.deliver(message) {
            Ok(()) => Ok(()),
            Err(refusal) => {
                list(&mut self.refused, line, refusal)?;
                Ok(())
            }
        }
    }

    /// Gives these messages, in their order.
    fn deliver(&mut self, line: u32, messages: &Messages) -> Result<(), AllocError>
        ensures { OnOk result (LeadsTo (λ p q. Gives p line messages.now q) self.old self.new) }
    {
        for message in messages.as_slice() {
            self.give(line, u64::from(*message))?;
        }
        Ok(())
    }

    /// Gives the messages of these numbers, in their order.
    fn give_all(&mut self, line: u32, messages: &[u64]) -> Result<(), AllocError>
        ensures { OnOk result (LeadsTo (λ p q. Gives p line messages.now q) self.old self.new) }
    {
        for message in messages {
            self.give(line, *message)?;
        }
        Ok(())
    }

    /// Gives the messages that are numbered from above `from` up to `sent`, in their order.
    fn give_above(&mut self, line: u32, from: usize, sent: usize) -> Result<(), AllocError>
        requires { from ≤ sent }
        ensures { OnOk result (LeadsTo (λ p q. Gives p line (above from (sent - from)) q) self.old self.new) }
    {
        for place in from..sent {
            self.give(line, place as u64 + 1)?;
        }
        Ok(())
    }

    /// Gives each of the messages up to this number that was never given, where others were given behind it.
    fn give_left(&mut self, line: u32, sent: usize) -> Result<(), AllocError>
        requires { sent ≡ length self.old.world.messages }
        ensures { OnOk result (LeadsTo (λ p q. Plays p line asked.Flush q) self.old self.new) }
    {
        let messages = self.given.ungiven(self.alloc, sent)?;
        self.give_all(line, messages.as_slice())?;
        Ok(())
    }

    /// Gives each message that was sent and never given.
    fn flush(&mut self, line: u32) -> Result<(), AllocError>
        ensures { OnOk result (LeadsTo (λ p q. Plays p line asked.Flush q) self.old self.new) }
    {
        let sent = self.world.messages().len();
        match self.given.prefix(sent) {
            Some(from) => {
                self.give_above(line, from, sent)?;
                Ok(())
            }
            None => {
                self.give_left(line, sent)?;
                Ok(())
            }
        }
    }

    /// Has a replica do what an agenda would have it do.
    fn ask(&mut self, line: u32, asked: &AgendaLine) -> Result<(), AllocError>
        ensures { OnOk result (LeadsTo (λ p q. Asks p line asked.now q) self.old self.new) }
    {
        match asked {
            AgendaLine::Propose {
                replica,
                client,
                command,
                spared,
            } => self.propose(line, *replica, *client, command, *spared),
            AgendaLine::GiveUp(replica, instance) => self.attempt(
                line,
                WorldEvent::GiveUp {
                    replica: *replica,
                    instance: *instance,
                },
            ),
            AgendaLine::Recover(replica, instance) => self.attempt(
                line,
                WorldEvent::Recover {
                    replica: *replica,
                    instance: *instance,
                },
            ),
        }
    }

    /// Plays one line.
    fn play(&mut self, line: u32, what: &Line) -> Result<(), AllocError>
        ensures { OnOk result (LeadsTo (λ p q. Plays p line what.now q) self.old self.new) }
    {
        match what {
            Line::Agenda(asked) => self.ask(line, asked),
            Line::Execute(replica, instance) => self.attempt(
                line,
                WorldEvent::Execute {
                    replica: *replica,
                    instance: *instance,
                },
            ),
            Line::Deliver(messages) => self.deliver(line, messages),
            Line::Flush => self.flush(line),
        }
    }

    /// Plays lines, in order.
    fn play_all(&mut self, lines: &[(u32, Line)]) -> Result<(), AllocError>
        ensures { OnOk result (LeadsTo (λ p q. PlayAll p lines.now q) self.old self.new) }
    {
        for (line, what) in lines {
            self.play(*line, what)?;
        }
        Ok(())
    }

    /// Where the lines have led.
    fn into_ended(self) -> Result<Ended, AllocError>
        ensures world { IfOk result (λ d. d.world ≡ self.world) }
        ensures receipts { IfOk result (λ d. d.receipts.items ≡ self.receipts.items) }
        ensures tried { IfOk result (λ d. d.tried.items ≡ self.tried.items) }
        ensures ungiven { IfOk result (λ d. (given : List ℕ) → AreFlagged self.given given → AreUngiven given (length self.world.messages) d.ungiven.items) }
    {
        let Player {
            world,
            clients: _,
            mut given,
            receipts,
            refused: _,
            keeps: _,
            tried,
            alloc,
        } = self;
        let ungiven = given.ungiven(alloc, world.messages().len())?;
        Ok(Ended {
            world,
            receipts,
            tried,
            ungiven,
        })
    }

    /// What the replay leaves.
    fn into_replayed(self, alloc: Global) -> Result<Replayed, AllocError>
        ensures journals { IfOk result (λ d. d.journals ≡ collected self.world) }
        ensures receipts { IfOk result (λ d. d.receipts.items ≡ self.receipts.items) }
        ensures refused { IfOk result (λ d. d.refused.items ≡ self.refused.items) }
        ensures accepted { IfOk result (λ d. AreOwn self.world self.receipts.items → IsAccepted (opens d.journals.opening) d.journals.faults (journals_of d.journals) d.receipts.items) }
    {
        self.world.journals_are_accepted();
        let Player {
            world,
            clients: _,
            given: _,
            receipts,
            refused,
            keeps: _,
            tried: _,
            alloc: _,
        } = self;
        let journals = world.into_journals(alloc)?;
        Ok(Replayed {
            journals,
            receipts,
            refused,
        })
    }
}

/// A player that has played all lines of the script.
fn played(alloc: Global, script: &Script, keeps: bool) -> Result<Player, AllocError>
    ensures { IfOk result (λ s. HasPlayed script.now keeps s) }
{
    let mut player = Player::new(alloc, script.head(), keeps)?;
    player.play_all(script.lines())?;
    Ok(player)
}

/// Plays the script in a world of its size and version, which opens as its head says. An event that is refused changes nothing, and the
/// script goes on; running out of memory ends the replay.
///
/// A client's requests are numbered from 1 in the script's order, refused ones included. What it has seen is the
/// greatest stamp of its receipts so far. After each event the replica that took it gives its receipts.
pub fn play(alloc: Global, script: &Script) -> Result<Ended, AllocError>
    ensures value { IfOk result (λ d. HasEnded script.now d) }
    ensures version { IfOk result (λ d. d.world.version ≡ script.now.head.version) }
    ensures opening { IfOk result (λ d. d.world.opening ≡ opening_of script.now.head.opening) }
    ensures own { IfOk result (λ d. AreOwn d.world d.receipts.items) }
{
    let player = played(alloc, script, true)?;
    let ended = player.into_ended()?;
    Ok(ended)
}

/// Plays the script as `play` does, and keeps the journals, the receipts, and the events that were refused, each with its line.
///
/// There is one receipt at most for each instance, so there are at most 63,000 in all. The audit accepts what a replay leaves.
pub fn replay(alloc: Global, script: &Script) -> Result<Replayed, AllocError>
    ensures value { IfOk result (λ d. IsReplay script.now d) }
    ensures version { IfOk result (λ d. d.journals.version ≡ script.now.head.version) }
    ensures opening { IfOk result (λ d. d.journals.opening ≡ opening_of script.now.head.opening) }
    ensures accepted { IfOk result (λ d. IsAccepted (opens d.journals.opening) d.journals.faults (journals_of d.journals) d.receipts.items) }
    ensures once { IfOk result (λ d. AreOnce (instances_of d.receipts.items)) }
    ensures few { IfOk result (λ d. length d.receipts.items ≤ 63000) }
{
    let player = played(alloc, script, false)?;
    let left = player.into_replayed(alloc)?;
    left.journals.are_local_runs();
    let _faults = left.journals.size().faults();
    Ok(left)
}
