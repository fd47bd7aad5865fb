//! Runs.

ghost use Rattle.std.specs.Prelude.{◌≡◌, ℕ, List, Some, IfOk, OnOk};
ghost use Rattle.ep_base.specs.Quorums.{size as size_with};
ghost use Rattle.ep_host.specs.Finishing.{IsFinished};
ghost use Rattle.ep_replay.specs.Tables.{AreCounted};
ghost use Rattle.ep_rules.specs.declared.receipt.Receipt.{Receipt as Reported};
ghost use Rattle.ep_script.specs.Fits.{FitsSection};
ghost use Rattle.ep_replay.specs.Heads.{opening_of};
ghost use Rattle.ep_run.specs.Asking.{AreSubmissions, proposers_of};
ghost use Rattle.ep_run.specs.Locks.{HasBegun, IsOfHost};
ghost use Rattle.ep_run.specs.Rings.{IsBegun, begun_of};

use crate::collecting::{last_entry, none_collected, note_last};
use crate::lane::run_threads;
use crate::limits::Limits;
use crate::ran::Ran;
use crate::run_fault::RunFault;
use crate::submission::Submission;
use crate::weather::{want_of_memory, weather_in};
use ep_base::ReplicaId;
use ep_host::{LockHost, Start, Turn};
use ep_journal::Refusal;
use ep_replay::{Clients, beginning_of};
use ep_rules::Receipt;
use ep_script::{Head, RunScript, ScriptSection};
use std::alloc::{AllocError, Global};
use std::marker::{Brand, Send, Sync};
use std::sync::Wait;
use std::thread::Threads;

/// Runs the sections of a script.
struct Runner<S: Start> {
    host: LockHost<S>,
    clients: Clients,
    receipts: Vec<Receipt>,
    refused: Vec<(u32, Refusal)>,
    /// For each replica the number of the last entry whose receipts were collected.
    collected: Vec<u32>,
    alloc: Global,
}

/// What the section's lines ask for, in order.
fn submissions_of(
    alloc: Global,
    clients: &mut Clients,
    section: &ScriptSection,
) -> Result<Vec<Submission>, AllocError>
    ensures tasks { IfOk result (λ tasks. (ps : List ℕ) (ts : List Reported) → AreCounted clients.old ps ts → AreSubmissions ps ts section.now.lines tasks.items) }
    ensures counted { OnOk result ((ps : List ℕ) (ts : List Reported) → AreCounted clients.old ps ts → AreCounted clients.new (proposers_of ps section.now.lines) ts) }
{
    let mut tasks = Vec::new(alloc);
    for (line, asked) in section.lines() {
        tasks.push(Submission::new(alloc, clients, *line, asked)?)?;
    }
    Ok(tasks)
}

/// The replicas that the head names, before any event.
fn host_of<S: Start>(alloc: Global, head: &Head, limits: &Limits) -> Result<LockHost<S>, AllocError>
    requires start { S.start ≡ (head.now.version, opening_of head.now.opening) }
    requires room { S.room ≡ Some limits.now.capacity }
    ensures { IfOk result (λ host. HasBegun head.now host.cluster host.version host.opening) }
{
    let beginning = beginning_of(alloc, head)?;
    LockHost::opened(alloc, head.size(), limits.capacity, &beginning)
}

impl<S: Start + Send + Sync> Runner<S> {
    /// A runner before any section.
    fn new(alloc: Global, head: &Head, limits: &Limits) -> Result<Runner<S>, AllocError>
        requires start { S.start ≡ (head.now.version, opening_of head.now.opening) }
        requires room { S.room ≡ Some limits.now.capacity }
        ensures { IfOk result (λ runner. HasBegun head.now runner.host.cluster runner.host.version runner.host.opening) }
    {
        let collected = none_collected(alloc, head.size().count() as usize)?;
        let host = host_of(alloc, head, limits)?;
        Ok(Runner {
            host,
            clients: Clients::new(alloc),
            receipts: Vec::new(alloc),
            refused: Vec::new(alloc),
            collected,
            alloc,
        })
    }

    /// Runs the sections of a script.
    fn run_all<R: Threads + Wait + Sync>(
        &mut self,
        rt: &R,
        script: &RunScript,
        turns: u32,
    ) -> Result<(), RunFault>
        requires cluster { self.old.host.cluster ≡ script.now.head.faults }
        ensures { self.new.host ≡ self.old.host }
    {
        for section in script.sections() {
            self.run(rt, section, turns)?;
        }
        Ok(())
    }

    /// Runs a section in threads and in its own weather, has the held frames put, settles, and collects what came of it.
    fn run<R: Threads + Wait + Sync>(
        &mut self,
        rt: &R,
        section: &ScriptSection,
        turns: u32,
    ) -> Result<(), RunFault>
        requires fits { FitsSection (size_with self.old.host.cluster) section.now }
        ensures { self.new.host ≡ self.old.host }
    {
        self.set_weather(rt, section)?;
        let tasks = submissions_of(self.alloc, &mut self.clients, section)?;
        let done = self.run_tasks(rt, &tasks, turns);
        drop(tasks);
        done
    }

    /// Runs tasks in threads, has the held frames put, settles, and collects what came of it.
    fn run_tasks<R: Threads + Wait + Sync>(
        &mut self,
        rt: &R,
        tasks: &Vec<Submission>,
        turns: u32,
    ) -> Result<(), RunFault>
        ensures { self.new.host ≡ self.old.host }
    {
        run_threads(rt, &self.host, tasks, turns)?;
        self.host.release(rt);
        self.settle(rt, turns);
        self.list(rt, tasks.as_slice())?;
        self.collect_all(rt)
    }

    /// Sets the host's weather: the section's.
    fn set_weather<R: Wait>(&self, rt: &R, section: &ScriptSection) -> Result<(), AllocError>
        requires { FitsSection (size_with self.now.host.cluster) section.now }
    {
        let weather = weather_in(self.alloc, section.weather())?;
        match self.host.set_weather(rt, &weather) {
            Ok(()) => Ok(()),
            Err(fault) => Err(want_of_memory(fault)),
        }
    }

    /// Pumps the replicas in rounds, until none of them moves, or after so many.
    fn settle<R: Wait>(&self, rt: &R, rounds: u32) {
        for _ in 0..rounds {
            if !self.pump_each(rt) {
                return;
            }
        }
    }

    /// One pump of each replica; whether one of them moved.
    fn pump_each<R: Wait>(&self, rt: &R) -> bool {
        let mut has_moved = false;
        for index in 0..self.host.size().count() {
            let replica = ReplicaId::new(index).unwrap();
            if self.host.pump(rt, replica) == Ok(Turn::Moved) {
                has_moved = true;
            }
        }
        has_moved
    }

    /// Lists the tasks that were refused.
    fn list<R: Wait>(&mut self, rt: &R, tasks: &[Submission]) -> Result<(), AllocError>
        ensures { self.new.host ≡ self.old.host }
    {
        for task in tasks {
            if let Some(cause) = task.refusal(rt) {
                self.refused.push((task.line, cause))?;
            }
        }
        Ok(())
    }

    /// Collects the receipts that the replicas have given since the last section, by replica.
    fn collect_all<R: Wait>(&mut self, rt: &R) -> Result<(), RunFault>
        ensures { self.new.host ≡ self.old.host }
    {
        for index in 0..self.host.size().count() {
            let replica = ReplicaId::new(index).unwrap();
            self.collect(rt, replica)?;
        }
        Ok(())
    }

    /// Collects the receipts that the replica has given since the last section.
    fn collect<R: Wait>(&mut self, rt: &R, replica: ReplicaId) -> Result<(), RunFault>
        ensures { self.new.host ≡ self.old.host }
    {
        let place = replica.index() as usize;
        let before = match self.collected.get(place) {
            Some(entry) => *entry,
            None => return Ok(()),
        };
        let Ok(mut new) = self.host.receipts_after(rt, replica, before) else {
            return Err(RunFault::Memory);
        };
        self.clients.note_all(&new)?;
        note_last(
            self.collected.as_mut_slice(),
            place,
            last_entry(&new, before),
        );
        self.receipts.append(&mut new)?;
        Ok(())
    }

    /// Drops all of it.
    fn discard(self) {
        let Runner {
            host,
            clients,
            receipts,
            refused,
            collected,
            alloc: _,
        } = self;
        drop(host);
        drop(clients);
        drop(receipts);
        drop(refused);
        drop(collected);
    }

    /// What the run leaves.
    fn end<R: Wait>(self, rt: &R) -> Result<Ran, AllocError>
        ensures finished { IfOk result (λ r. IsFinished r.receipts.items r.finished) }
        ensures begun { IfOk result (λ r. IsOfHost self.host.cluster self.host.version self.host.opening r.finished.journals) }
    {
        let Runner {
            host,
            clients,
            receipts,
            refused,
            collected,
            alloc: _,
        } = self;
        drop(clients);
        drop(collected);
        let lost = host.lost(rt);
        match host.finish(&receipts) {
            Ok(finished) => Ok(Ran {
                finished,
                receipts,
                refused,
                lost,
            }),
            Err(fault) => {
                drop(receipts);
                drop(refused);
                Err(fault)
            }
        }
    }
}

/// Runs the script over replicas that start so, with inboxes of this size.
fn run_as<S: Start + Send + Sync, R: Threads + Wait + Sync>(
    rt: &R,
    alloc: Global,
    script: &RunScript,
    limits: &Limits,
) -> Result<Ran, RunFault>
    requires start { S.start ≡ (script.now.head.version, opening_of script.now.head.opening) }
    requires room { S.room ≡ Some limits.now.capacity }
    ensures finished { IfOk result (λ r. IsFinished r.receipts.items r.finished) }
    ensures begun { IfOk result (λ r. IsBegun (begun_of script.now.head) r.finished.journals) }
{
    let mut runner = Runner::<S>::new(alloc, script.head(), limits)?;
    match runner.run_all(rt, script, limits.turns) {
        Ok(()) => Ok(runner.end(rt)?),
        Err(fault) => {
            runner.discard();
            Err(fault)
        }
    }
}

/// Runs the script in threads, over replicas behind locks.
///
/// The sections are run one after another, each in its own weather. In each, every replica has a thread that submits its lines,
/// in the script's order, and one that pumps it, until its lines are submitted and a later pump is idle, or for the limit of
/// turns; then the held frames are put; then all are pumped in rounds until none of them moves, or for as many rounds; then
/// receipts are collected. A frame that is held while they are pumped so waits for the next section. A client's requests are
/// numbered from 1 in the script's order, refused ones included; what it has seen is the greatest stamp of its receipts
/// before the section. A line that its replica refuses is listed, and the run goes on; so it does where a thread finds no
/// memory. Elsewhere running out of memory ends the run, and so does a thread that can't be started.
///
/// The journals are of the script's version, and have its opening. The audit's verdict of them and of the receipts, or its first fault, is part of what a run leaves.
pub fn run<R: Threads + Wait + Sync>(
    rt: &R,
    alloc: Global,
    script: &RunScript,
    limits: &Limits,
) -> Result<Ran, RunFault>
    ensures finished { IfOk result (λ r. IsFinished r.receipts.items r.finished) }
    ensures begun { IfOk result (λ r. IsBegun (begun_of script.now.head) r.finished.journals) }
{
    run_as::<Brand, R>(rt, alloc, script, limits)
}
