//! A node of a ring host.

ghost use Rattle.std.specs.Prelude.{◌≡◌};

use crate::acting::{act, handle, pop};
use crate::host_fault::HostFault;
use crate::link::Link;
use crate::setting::{count_anew, make_room, release_all, replace};
use crate::task::Task;
use crate::turn::Turn;
use crate::weather::{Weather, is_weather_at};
use ep_base::ReplicaId;
use ep_journal::{Journal, StepFault};
use ep_replica::Replica;
use ep_rules::Receipt;
use std::alloc::{AllocError, Global};
use std::collections::VecDeque;
use std::marker::Model;

/// A replica with its tasks and the ends of its rings.
///
/// What it put into a ring is a frame out of an entry of its journal, and each frame that it handled was taken from one of its rings, at any time
/// and whatever the other nodes do.
pub struct RingNode {
    pub(crate) replica: Replica,
    pub(crate) links: Vec<Link>,
    weather: Vec<Weather>,
    pub(crate) agenda: VecDeque<Task>,
    refused: Vec<(u32, StepFault)>,
    // How many tasks were used up.
    used: u32,
    lost: u64,
    // Whether it ended in the last section.
    pub(crate) ended: bool,
}

impl Model for RingNode {
    ghost use Rattle.std.specs.Prelude.{◌+◌, ◌≤◌, vec_len, vec_capacity};
    ghost use Rattle.std.specs.VecDeque.{deque_len};
    ghost use Rattle.ep_host.specs.Node.{Node, node_code};
    ghost use Rattle.ep_host.specs.Rings.{IsBooked};

    ghost Value = { Node };

    ghost coded = { node_code };

    ghost view = { λ n. record { replica = n.replica; links = n.links.items; weather = n.weather.items; agenda = n.agenda.items; refused = n.refused.items; used = n.used; lost = n.lost; ended = n.ended } };

    ghost invariant = { λ n. IsBooked n.replica.me n.replica.entries n.links.items × (vec_len n.refused + deque_len n.agenda ≤ vec_capacity n.refused) };
}

// (by hand, so that no crate above proves again how the parts are dropped)
impl Drop for RingNode {
    fn drop(self) {
        let RingNode {
            replica,
            links,
            weather,
            agenda,
            refused,
            used: _,
            lost: _,
            ended: _,
        } = self;
        drop(replica);
        drop(links);
        drop(weather);
        drop(agenda);
        drop(refused);
    }
}

impl RingNode {
    ghost use Rattle.std.specs.Prelude.{◌≡◌, ◌<◌, ◌++◌, ◌∷◌, [], false, length, IfOk, IfErr, OnOk, OnErr};
    ghost use Rattle.ep_journal.specs.Entries.{entries_of};
    ghost use Rattle.ep_journal.specs.Openings.{opens};
    ghost use Rattle.ep_replica.specs.Receipts.{receipts_after};
    ghost use Rattle.ep_rules.specs.Verdicts.{IsOwn};
    ghost use Rattle.ep_rules.specs.Worlds.{In};
    ghost use Rattle.ep_rules.specs.declared.receipt.Receipt.{Receipt as Reported};
    ghost use Rattle.ep_host.specs.Node.{fresh_node, with_link};
    ghost use Rattle.ep_host.specs.Rings.{IsBooked, IsFreshLink};
    ghost use Rattle.ep_host.specs.Turns.{Assigns, TakesAt, Takes, BeginsTask, ExecutesOwn, IsTurn, has_moved};
    ghost use Rattle.ep_host.specs.Follows.{Follows};
    ghost use Rattle.ep_host.specs.Setting.{SetsWeather, IsUnset, IsReleased};
    ghost use Rattle.ep_host.specs.Weathers.{IsWeatherAt};

    /// A node without rings and tasks.
    pub(crate) fn new(alloc: Global, replica: Replica) -> RingNode
        requires { replica.entries ≡ [] }
        ensures { result ≡ fresh_node replica }
    {
        RingNode {
            replica,
            links: Vec::new(alloc),
            weather: Vec::new(alloc),
            agenda: VecDeque::new(alloc),
            refused: Vec::new(alloc),
            used: 0,
            lost: 0,
            ended: false,
        }
    }

    /// The replica.
    pub fn replica(&self) -> &Replica
        ensures { result.now ≡ self.now.replica }
    {
        &self.replica
    }

    /// The replica's number.
    pub(crate) fn me(&self) -> ReplicaId
        ensures { result ≡ self.now.replica.me }
    {
        self.replica.me()
    }

    /// What it put and handled: a law, which costs nothing to call.
    pub fn is_booked(&self)
        ensures { IsBooked self.now.replica.me self.now.replica.entries self.now.links }
    {
        let _ = &self.links;
    }

    /// How many frames it lost: frames out, where a ring was full or there was no memory for them, and frames that it took and that were refused
    /// when out of memory. Counted up to 2^64 - 1.
    pub fn lost(&self) -> u64
        ensures { result ≡ self.now.lost }
    {
        self.lost
    }

    /// The tasks that were refused, each with its place from 0 among all that were assigned, and why. A place past 4,294,967,295 is given as that number.
    pub fn refused(&self) -> &[(u32, StepFault)]
        ensures { result.now ≡ self.now.refused }
    {
        self.refused.as_slice()
    }

    /// The journal alone.
    pub fn into_journal(self) -> Journal
        ensures { result ≡ self.replica }
    {
        let RingNode {
            replica,
            links,
            weather,
            agenda,
            refused,
            used: _,
            lost: _,
            ended: _,
        } = self;
        drop(links);
        drop(weather);
        drop(agenda);
        drop(refused);
        replica.into_journal()
    }

    /// Puts a task last on the agenda, and makes the place for its refusal.
    pub fn assign(&mut self, task: Task) -> Result<(), AllocError>
        ensures ok { OnOk result (Assigns self.old task self.new) }
        ensures err { OnErr result (self.new ≡ self.old) }
    {
        match self.refused.reserve(self.agenda.len().saturating_add(1)) {
            Ok(()) => {
                self.agenda.push_back(task)?;
                Ok(())
            }
            Err(fault) => {
                drop(task);
                Err(fault)
            }
        }
    }

    /// One link more, whose rings nothing has gone through.
    pub(crate) fn add_link(&mut self, link: Link) -> Result<(), AllocError>
        requires { IsFreshLink self.old.replica.me self.old.links link }
        ensures { OnOk result (self.new ≡ with_link self.old link) }
    {
        self.links.push(link)?;
        Ok(())
    }

    /// Takes a frame from the ring of the peer at this place, if it holds one, and handles it.
    fn take(&mut self, place: usize) -> bool
        requires { place < length self.old.links }
        ensures { TakesAt place result self.old self.new }
    {
        let Some(frame) = pop(&mut self.links, place) else {
            return false;
        };
        let lost = handle(
            &mut self.replica,
            &mut self.links,
            self.weather.as_slice(),
            frame,
        );
        self.lost = self.lost.saturating_add(lost);
        true
    }

    /// Takes at most one frame of each peer, in rising order.
    fn take_all(&mut self) -> bool
        ensures { Takes (length self.old.links) result self.old self.new }
    {
        let mut moved = false;
        for place in 0..self.links.len() {
            let now = self.take(place);
            moved = moved | now;
        }
        moved
    }

    /// Uses up the agenda's head, if there is one.
    fn begin(&mut self) -> bool
        ensures { BeginsTask result self.old self.new }
    {
        let Some(task) = self.agenda.pop_front() else {
            return false;
        };
        let place = self.used;
        self.used = place.saturating_add(1);
        let weather = self.weather.as_slice();
        match act(
            &mut self.replica,
            &mut self.links,
            weather,
            task.into_event(),
        ) {
            Ok(lost) => self.lost = self.lost.saturating_add(lost),
            Err(fault) => self.refused.push_reserved((place, fault)),
        }
        true
    }

    /// Executes the next ready instance of the replica's own, if there is one.
    fn execute(&mut self) -> bool
        ensures { ExecutesOwn result self.old self.new }
    {
        self.replica.execute_next()
    }

    /// One turn: at most one frame of each peer, by rising number, then the agenda's head, then at most one execution.
    ///
    /// `Moved` where a frame was taken, a task was used up or an instance was executed.
    pub fn turn(&mut self) -> Turn
        ensures turns { IsTurn (has_moved result) self.old self.new }
        ensures follows { Follows self.old self.new }
    {
        let taken = self.take_all();
        let begun = self.begin();
        let executed = self.execute();
        Turn::of(taken | begun | executed)
    }

    /// Sets the weather: what is to become of which frames that the node puts from now on. It takes the place of the one before; what is held stays held.
    ///
    /// `OutOfRange` where one of these names no frame that this node puts for another one of the cluster, or two name one frame; otherwise `Memory`
    /// when out of memory. Either leaves the node as it was.
    pub fn set_weather(&mut self, weather: &[Weather]) -> Result<(), HostFault>
        ensures ok { OnOk result (IsWeatherAt self.old.replica.faults self.old.replica.me weather.now × SetsWeather weather.now self.old self.new) }
        ensures refused { IfErr result (IsUnset (IsWeatherAt self.old.replica.faults self.old.replica.me weather.now)) }
        ensures err { OnErr result (self.new ≡ self.old) }
    {
        if !is_weather_at(self.replica.size(), self.me(), weather) {
            return Err(HostFault::OutOfRange);
        }
        make_room(&mut self.links, weather)?;
        self.weather.reserve(weather.len())?;
        replace(&mut self.weather, weather);
        count_anew(&mut self.links);
        Ok(())
    }

    /// Puts the held frames into their rings, in order. Those that find theirs full are lost.
    pub fn release(&mut self)
        ensures { IsReleased self.old self.new }
    {
        self.lost = release_all(&mut self.links, self.lost);
    }

    /// The receipts that the replica gave after this entry, in order: of what was proposed and executed here.
    pub fn receipts_after(&self, alloc: Global, entry: u32) -> Result<Vec<Receipt>, AllocError>
        ensures reported { IfOk result (λ ts. ts.items ≡ receipts_after self.now.replica.me entry (entries_of self.now.replica.entries)) }
        ensures own { IfOk result (λ ts. (t : Reported) → In t ts.items → IsOwn (opens self.now.replica.opening) self.now.replica.faults self.now.replica.me (entries_of self.now.replica.entries) t) }
    {
        // Nothing is done with these: that the entries are a run, and that some replica may fail, is known by asking.
        let _run = self.replica.journal().entries();
        let _faults = self.replica.size().faults();
        let reported = self.replica.receipts_after(alloc, entry)?;
        Ok(reported)
    }

    /// Adds the receipts of what was proposed and executed here.
    pub(crate) fn add_receipts(
        &self,
        alloc: Global,
        receipts: &mut Vec<Receipt>,
    ) -> Result<(), AllocError>
        ensures { OnOk result (receipts.new.items ≡ receipts.old.items ++ receipts_after self.now.replica.me 0 (entries_of self.now.replica.entries)) }
    {
        let mut more = self.replica.receipts_after(alloc, 0)?;
        receipts.append(&mut more)?;
        Ok(())
    }
}
