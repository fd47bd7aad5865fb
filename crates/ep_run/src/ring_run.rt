//! A run over nodes with rings, section by section.

ghost use Rattle.std.specs.Prelude.{◌≡◌, ◌++◌, ◌∷◌, [], ◌≤◌, length, ℕ, List, All, IfOk, OnOk, IsOk};
ghost use Rattle.ep_host.specs.Finishing.{IsFinished};
ghost use Rattle.ep_host.specs.Host.{IsHost};
ghost use Rattle.ep_replay.specs.Tables.{AreCounted};
ghost use Rattle.ep_rules.specs.declared.receipt.Receipt.{Receipt as Reported};
ghost use Rattle.ep_script.specs.Fits.{FitsCluster, FitsSection};
ghost use Rattle.ep_script.specs.declared.agenda_line.AgendaLine.{AgendaLine as Line};
ghost use Rattle.ep_run.specs.Asking.{asked_by as asks_of, asked_of, proposers_after, proposers_of};
ghost use Rattle.ep_run.specs.Rings.{AreAssigned, Begins, SettlesReleased, Turns, lost_in};
ghost use Rattle.ep_host.specs.Host.{IsFresh, StartsAs};
ghost use Rattle.ep_replay.specs.Heads.{opening_of};
ghost use Rattle.ep_run.specs.Lines.{AreDone};
ghost use Rattle.ep_run.specs.Weathers.{weather_in, HasOwn};

use crate::asking::asked_by;
use crate::collecting::entry_counts;
use crate::ran::Ran;
use crate::refusals::refused_lines;
use crate::ring_weather::set_weather;
use ep_host::{Finished, Gate, RingHost, RingNode, finish_with, section as turn_all, settle};
use ep_replay::{Clients, beginning_of};
use ep_rules::Receipt;
use ep_script::{AgendaLine, Head, RunScript, ScriptSection};
use std::alloc::{AllocError, Global};
use std::marker::Sync;
use std::mem;
use std::thread::Threads;

/// Lets each node end once its tasks are used up.
struct Open;

impl Gate for Open {
    ghost use Rattle.std.specs.Prelude.{⊤};

    ghost lets = { λ _ _. ⊤ };

    fn told(&self, _node: usize, _agenda_empty: bool) -> bool {
        true
    }
}

/// How far a run over nodes with rings has come.
pub(crate) struct RingRun {
    nodes: Vec<RingNode>,
    clients: Clients,
    receipts: Vec<Receipt>,
    /// For each node how many entries it had when receipts were collected last.
    collected: Vec<u32>,
    alloc: Global,
}

/// Puts what a line asks for on the agenda of its node.
fn assign_line(
    alloc: Global,
    clients: &mut Clients,
    nodes: &mut [RingNode],
    line: &AgendaLine,
) -> Result<(), AllocError>
    requires fits { FitsCluster (length nodes.old) line.now }
    requires counted { (ps : List ℕ) × (ts : List Reported) × AreCounted clients.old ps ts }
    ensures host { (f : ℕ) → IsHost f nodes.old → IsHost f nodes.new }
    ensures assigned { OnOk result ((ps : List ℕ) (ts : List Reported) (n : ℕ) → AreCounted clients.old ps ts → AreAssigned (asks_of ps ts ((n, line.now) ∷ [])) nodes.old nodes.new) }
    ensures counted { OnOk result ((ps : List ℕ) (ts : List Reported) → AreCounted clients.old ps ts → AreCounted clients.new (proposers_after ps line.now) ts) }
{
    let (replica, task) = asked_by(alloc, clients, line)?;
    RingHost::assign(nodes, replica.index() as usize, task)?;
    Ok(())
}

/// Puts what the lines ask for on the agendas of their nodes, in order.
fn assign_all(
    alloc: Global,
    clients: &mut Clients,
    nodes: &mut [RingNode],
    lines: &[(u32, AgendaLine)],
) -> Result<(), AllocError>
    requires fit { All (λ (e : ℕ × Line). FitsCluster (length nodes.old) e.1) lines.now }
    requires counted { (ps : List ℕ) × (ts : List Reported) × AreCounted clients.old ps ts }
    ensures host { (f : ℕ) → IsHost f nodes.old → IsHost f nodes.new }
    ensures assigned { OnOk result ((ps : List ℕ) (ts : List Reported) → AreCounted clients.old ps ts → AreAssigned (asks_of ps ts lines.now) nodes.old nodes.new) }
    ensures counted { OnOk result ((ps : List ℕ) (ts : List Reported) → AreCounted clients.old ps ts → AreCounted clients.new (proposers_of ps lines.now) ts) }
{
    for (_, line) in lines {
        assign_line(alloc, clients, nodes, line)?;
    }
    Ok(())
}

/// Begins a section: puts what its lines ask for on the agendas of their nodes, and sets its weather.
fn begin(
    alloc: Global,
    clients: &mut Clients,
    nodes: &mut [RingNode],
    section: &ScriptSection,
) -> Result<(), AllocError>
    requires fits { FitsSection (length nodes.old) section.now }
    requires host { (f : ℕ) × IsHost f nodes.old }
    requires counted { (ps : List ℕ) × (ts : List Reported) × AreCounted clients.old ps ts }
    ensures host { (f : ℕ) → IsHost f nodes.old → IsHost f nodes.new }
    ensures begins { OnOk result ((ps : List ℕ) (ts : List Reported) → AreCounted clients.old ps ts → Begins (asks_of ps ts section.now.lines) (weather_in section.now.weather) nodes.old nodes.new) }
    ensures counted { OnOk result ((ps : List ℕ) (ts : List Reported) → AreCounted clients.old ps ts → AreCounted clients.new (proposers_of ps section.now.lines) ts) }
{
    assign_all(alloc, clients, nodes, section.lines())?;
    set_weather(alloc, nodes, section)?;
    Ok(())
}

/// Puts the held frames, and then so many rounds.
fn settle_released(nodes: &mut [RingNode], rounds: u32)
    requires { (f : ℕ) × IsHost f nodes.old }
    ensures settles { SettlesReleased rounds nodes.old nodes.new }
    ensures host { (f : ℕ) → IsHost f nodes.old → IsHost f nodes.new }
{
    RingHost::release(nodes);
    settle(nodes, rounds);
}

/// So many turns of each node in a thread of its own; then the held frames are put, and then so many rounds.
fn turned<R: Threads + Sync>(rt: &R, nodes: Vec<RingNode>, turns: u32) -> Vec<RingNode>
    requires host { (f : ℕ) × IsHost f nodes.items }
    ensures turns { Turns turns nodes.items result.items }
    ensures host { (f : ℕ) → IsHost f nodes.items → IsHost f result.items }
{
    let mut nodes = turn_all(rt, nodes, &Open, turns).nodes;
    settle_released(nodes.as_mut_slice(), turns);
    nodes
}

/// The nodes that the head names, before any event and without tasks.
fn nodes_of(alloc: Global, head: &Head, capacity: usize) -> Result<Vec<RingNode>, AllocError>
    requires { (1 ≤ capacity) × (capacity ≤ 4096) }
    ensures host { IfOk result (λ nodes. IsHost head.now.faults nodes.items) }
    ensures fresh { IfOk result (λ nodes. All (IsFresh capacity) nodes.items) }
    ensures start { IfOk result (λ nodes. All (StartsAs head.now.version (opening_of head.now.opening)) nodes.items) }
{
    let beginning = beginning_of(alloc, head)?;
    RingHost::opened(alloc, head.size(), capacity, &beginning)
}

impl RingRun {
    ghost use Rattle.std.specs.Prelude.{◌≡◌, ◌++◌, ◌∷◌, [], ◌≤◌, ◌<◌, length, ℕ, List, All, IfOk, OnOk, IsOk};
    ghost use Rattle.ep_base.specs.Quorums.{size as size_with};
    ghost use Rattle.ep_host.specs.Finishing.{IsFinished};
    ghost use Rattle.ep_script.specs.Fits.{FitsSection};
    ghost use Rattle.ep_script.specs.Plan.{SectionPlan};
    ghost use Rattle.ep_run.specs.Lines.{AreDone};
    ghost use Rattle.ep_host.specs.Host.{IsFresh};
    ghost use Rattle.ep_host.specs.Node.{Node};
    ghost use Rattle.ep_host.specs.RingFinishing.{replicas_in, entries_in};
    ghost use Rattle.ep_run.specs.Rings.{Begun, Collects, HasRun, IsBegun, begun_of, entry_counts, given_after, given_at, proposers_in};
    ghost use Rattle.ep_run.specs.Sections.{IsSection, AreSections};
    ghost use Rattle.ep_run.specs.Weathers.{weather_in, HasOwn};

    /// A run before any section.
    pub(crate) fn new(alloc: Global, head: &Head, capacity: usize) -> Result<RingRun, AllocError>
        requires { (1 ≤ capacity) × (capacity ≤ 4096) }
        ensures run { IfOk result (λ s. (turns : ℕ) → HasRun (begun_of head.now) turns [] s) }
        ensures fresh { IfOk result (λ s. All (IsFresh capacity) s.nodes.items) }
        ensures none { IfOk result (λ s. s.receipts.items ≡ []) }
    {
        let nodes = nodes_of(alloc, head, capacity)?;
        let collected = match entry_counts(alloc, &nodes) {
            Ok(counts) => counts,
            Err(fault) => {
                RingHost::discard(nodes);
                return Err(fault);
            }
        };
        Ok(RingRun {
            nodes,
            clients: Clients::new(alloc),
            receipts: Vec::new(alloc),
            collected,
            alloc,
        })
    }

    /// Runs the sections of a script.
    pub(crate) fn run_all<R: Threads + Sync>(
        &mut self,
        rt: &R,
        script: &RunScript,
        turns: u32,
    ) -> Result<(), AllocError>
        requires run { (b : Begun) × HasRun b turns [] self.old }
        requires size { length self.old.nodes.items ≡ size_with script.now.head.faults }
        ensures run { OnOk result ((b : Begun) → HasRun b turns [] self.old → HasRun b turns script.now.sections self.new) }
        ensures sections { OnOk result ((b : Begun) → HasRun b turns [] self.old → AreSections turns script.now.sections [] self.old.receipts.items self.new.receipts.items self.old.nodes.items self.new.nodes.items) }
    {
        for section in script.sections() {
            self.run(rt, section, turns)?;
        }
        Ok(())
    }

    /// Runs a section in threads and in its own weather, puts the held frames, settles, and collects the receipts.
    pub(crate) fn run<R: Threads + Sync>(
        &mut self,
        rt: &R,
        section: &ScriptSection,
        turns: u32,
    ) -> Result<(), AllocError>
        requires run { (b : Begun) × (done : List SectionPlan) × HasRun b turns done self.old }
        requires fits { FitsSection (length self.old.nodes.items) section.now }
        ensures run { OnOk result ((b : Begun) (done : List SectionPlan) → HasRun b turns done self.old → HasRun b turns (done ++ section.now ∷ []) self.new) }
        ensures section { OnOk result ((b : Begun) (done : List SectionPlan) → HasRun b turns done self.old → IsSection turns section.now (proposers_in [] done) self.old.receipts.items self.new.receipts.items self.old.nodes.items self.new.nodes.items) }
        ensures weather { OnOk result (All (HasOwn (weather_in section.now.weather)) self.new.nodes.items) }
    {
        begin(
            self.alloc,
            &mut self.clients,
            self.nodes.as_mut_slice(),
            section,
        )?;
        let none = Vec::new(self.alloc);
        let nodes = mem::replace(&mut self.nodes, none);
        let emptied = mem::replace(&mut self.nodes, turned(rt, nodes, turns));
        RingHost::discard(emptied);
        self.collect_all()?;
        Ok(())
    }

    /// Collects the receipts that the nodes have given since the last section, by node.
    fn collect_all(&mut self) -> Result<(), AllocError>
        requires { length self.old.collected.items ≡ length self.old.nodes.items }
        ensures nodes { self.new.nodes ≡ self.old.nodes }
        ensures receipts { OnOk result (Collects (given_after self.old.collected.items self.old.nodes.items) self.old.nodes.items self.old.clients self.old.receipts.items self.new.clients self.new.receipts.items) }
        ensures collected { OnOk result (self.new.collected.items ≡ entry_counts self.old.nodes.items) }
    {
        for place in 0..self.nodes.len() {
            self.collect(place)?;
        }
        self.note_collected()
    }

    /// The receipts of all entries that there are were collected.
    fn note_collected(&mut self) -> Result<(), AllocError>
        ensures same { (self.new.nodes ≡ self.old.nodes) × (self.new.clients ≡ self.old.clients) × (self.new.receipts ≡ self.old.receipts) }
        ensures collected { OnOk result (self.new.collected.items ≡ entry_counts self.old.nodes.items) }
    {
        self.collected = entry_counts(self.alloc, &self.nodes)?;
        Ok(())
    }

    /// Collects the receipts that the node at this place has given since the last section.
    fn collect(&mut self, place: usize) -> Result<(), AllocError>
        requires place { place < length self.old.nodes.items }
        requires collected { length self.old.collected.items ≡ length self.old.nodes.items }
        ensures nodes { self.new.nodes ≡ self.old.nodes }
        ensures collected { self.new.collected ≡ self.old.collected }
        ensures receipts { OnOk result ((d : Node) → Collects (given_at place self.old.collected.items self.old.nodes.items d) self.old.nodes.items self.old.clients self.old.receipts.items self.new.clients self.new.receipts.items) }
    {
        let before = self.collected[place];
        let mut new = self.nodes[place].receipts_after(self.alloc, before)?;
        self.clients.note_all(&new)?;
        self.receipts.append(&mut new)?;
        Ok(())
    }

    /// Drops all of it.
    pub(crate) fn discard(self) {
        let RingRun {
            nodes,
            clients,
            receipts,
            collected,
            alloc: _,
        } = self;
        RingHost::discard(nodes);
        drop(clients);
        drop(receipts);
        drop(collected);
    }

    /// What the run leaves, of these sections.
    pub(crate) fn end(self, sections: &[ScriptSection]) -> Result<Ran, AllocError>
        requires { (b : Begun) × (turns : ℕ) × HasRun b turns sections.now self }
        ensures finished { IfOk result (λ r. IsFinished r.receipts.items r.finished) }
        ensures accepted { IfOk result (λ r. IsOk r.finished.verdict) }
        ensures begun { IfOk result (λ r. (b : Begun) (turns : ℕ) → HasRun b turns sections.now self → IsBegun b r.finished.journals) }
        ensures lines { IfOk result (λ r. (b : Begun) (turns : ℕ) → HasRun b turns sections.now self → AreDone turns sections.now r) }
        ensures receipts { IfOk result (λ r. r.receipts.items ≡ self.receipts.items) }
        ensures journals { IfOk result (λ r. r.finished.journals.entries ≡ entries_in (replicas_in self.nodes.items)) }
    {
        let RingRun {
            nodes,
            clients,
            receipts,
            collected,
            alloc,
        } = self;
        drop(clients);
        drop(collected);
        let refused = match refused_lines(alloc, sections, &nodes) {
            Ok(refused) => refused,
            Err(fault) => {
                RingHost::discard(nodes);
                drop(receipts);
                return Err(fault);
            }
        };
        let lost = lost_of(&nodes);
        match finish_with(alloc, nodes, &receipts) {
            Ok(finished) => Ok(Ran {
                finished,
                receipts,
                refused,
                lost,
            }),
            Err(fault) => {
                drop(receipts);
                drop(refused);
                Err(fault)
            }
        }
    }
}

/// How many frames the nodes have lost, up to 2^64 - 1.
fn lost_of(nodes: &[RingNode]) -> u64
    ensures { result ≡ lost_in nodes.now }
{
    nodes
        .iter()
        .fold(0, |lost: u64, node| lost.saturating_add(node.lost()))
}
