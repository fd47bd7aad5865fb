//! A machine that says when to wait no longer.

ghost use Rattle.std.specs.Prelude.{◌≡◌, ◌++◌, ℕ, Some, None, cond, length, ltb, nat_eq, option_to_list, OnOk, OnErr};
ghost use Rattle.ep_patience.specs.Turning.{earlier, waiting_for};

use crate::choosing::{
    asked, begun, chance, hurried, later, put_off, put_off_wait, remedy_at, waited_on,
};
use crate::outlook::{Outlook, outlook_at};
use crate::peer::Peer;
use crate::peers::{Place, count, distance, slowest};
use crate::remedy::Remedy;
use crate::seen::Seen;
use crate::trip::measured;
use crate::waiting::Waiting;
use crate::waits::Waits;
use ep_base::{InstanceId, ReplicaId, Size};
use indexmap::IndexMap;
use std::alloc::{AllocError, Global};

/// At most so many events are asked for in a turn.
const MOST_ASKED: u8 = 64;

/// The earlier of two times, where there are two.
fn earlier(found: Option<u64>, due: u64) -> u64
    ensures { result ≡ earlier found due }
{
    match found {
        Some(other) => other.min(due),
        None => due,
    }
}

/// Instances by their places, each as it is waited for.
type Waitings = IndexMap<u32, Waiting>;

/// How the instance is waited for, if it is.
fn waiting_for(all: &Waitings, instance: InstanceId) -> Option<Waiting>
    ensures { result ≡ waiting_for all.now.entries instance }
{
    all.get(&instance.place()).copied()
}

/// Adds what is asked for, if something is.
fn add(asked: &mut Vec<Remedy>, remedy: Option<Remedy>) -> Result<(), AllocError>
    ensures { OnOk result (asked.new.items ≡ asked.old.items ++ option_to_list remedy) }
{
    if let Some(remedy) = remedy {
        asked.push(remedy)?;
    }
    Ok(())
}

/// Whether more may be asked for.
fn has_room(asked: &Vec<Remedy>, most: u8) -> bool
    ensures { result ≡ ltb (length asked.now.items) most }
{
    asked.len() < usize::from(most)
}

/// What is asked for, where there is room.
fn granted(room: bool, remedy: Option<Remedy>) -> Option<Remedy>
    ensures { result ≡ cond room remedy None }
{
    if room { remedy } else { None }
}

/// Puts this in, or in place of what was there.
fn put(all: &mut Waitings, instance: InstanceId, waiting: Waiting) -> Result<(), AllocError>
    ensures ok { OnOk result ((i : ℕ) → waiting_for all.new.entries i ≡ cond (nat_eq instance i) (Some waiting) (waiting_for all.old.entries i)) }
    ensures err { OnErr result ((all.new.entries ≡ all.old.entries) × (waiting_for all.old.entries instance ≡ None)) }
{
    match all.insert(instance.place(), waiting) {
        Ok(_) => Ok(()),
        Err(_) => Err(AllocError),
    }
}

/// Which open instances a replica waits for, and until when, by the round trips to its peers.
///
/// Times are numbers of the host's clock, in a unit of its own. The replica's own time is that less the time in which it wasn't turning: where a turn comes later
/// than it was due by more than the granularity, what the replica waits for may have come long ago, and wait to be handled.
#[derive(Drop)]
pub struct Patience {
    place: Place,
    waits: Waits,
    seed: u64,
    peers: [Peer; 7],
    all: Waitings,
    /// The first time at which a wait is over, by the own time.
    first: Option<u64>,
    /// When the last turn was.
    turned: u64,
    /// How long the replica wasn't turning, of the time so far.
    away: u64,
    /// Whether the next turn hurries all that was asked for.
    is_hurried: bool,
}

impl Patience {
    ghost use Rattle.std.specs.Prelude.{◌≡◌, ◌↔◌, ◌-◌, ◌<◌, [], None, Some, true, false, ◌||◌, ◌&&◌, not, cond, slice_get, slice_set, IfOk, OnErr, IsOk, IsErr};
    ghost use Rattle.ep_base.specs.Deps.{IsRising};
    ghost use Rattle.ep_base.specs.Quorums.{size as size_of};
    ghost use Rattle.ep_patience.specs.Peers.{peer_of};
    ghost use Rattle.ep_patience.specs.Trips.{measured};
    ghost use Rattle.ep_patience.specs.Turning.{after, again_of, found_at, has_room, instances, is_alone, most_of, next_due, outlook_of, remedy_next, time_at, time_by, with_hurry, with_measured, with_reached, HasTurned, IsNew, PutsOff};

    /// That of this replica of a cluster, which waits so long, by the numbers of SplitMix64 from this seed. All peers
    /// are taken to be reached, none was measured, nothing is waited for, and the last turn counts as one at 0.
    /// Replicas of a cluster have different seeds.
    pub fn new(alloc: Global, size: Size, me: ReplicaId, waits: Waits, seed: u64) -> Patience
        ensures { IsNew size me waits seed result }
    {
        Patience {
            place: Place { size, me },
            waits,
            seed,
            peers: [Peer {
                trip: None,
                is_reached: true,
            }; 7],
            all: IndexMap::new(alloc),
            first: None,
            turned: 0,
            away: 0,
            is_hurried: false,
        }
    }

    /// An answer of this peer to an own proposal came so long after the proposal was sent to it. Not where that was sent twice: it isn't known then which
    /// one is answered (Karn's rule).
    pub fn measure(&mut self, peer: ReplicaId, took: u32)
        ensures { self.new ≡ with_measured self.old peer took }
    {
        let place = usize::from(peer.index());
        let trip = measured(self.peers[place].trip, took);
        self.peers[place].trip = Some(trip);
    }

    /// Whether frames to this peer arrive. Where one is reached again, all that was asked for is hurried.
    pub fn set_reached(&mut self, peer: ReplicaId, is_reached: bool)
        ensures { self.new ≡ with_reached self.old peer is_reached }
    {
        let place = usize::from(peer.index());
        self.is_hurried = self.is_hurried || is_reached && !self.peers[place].is_reached;
        self.peers[place].is_reached = is_reached;
    }

    /// What was asked for needn't be waited for as long any more: the next turn has it wait as if it had been asked for once.
    pub fn hurry(&mut self)
        ensures { self.new ≡ with_hurry self.old }
    {
        self.is_hurried = true;
    }

    /// Whether so few peers are reached that nothing can be recovered.
    fn is_alone(&self) -> bool
        ensures { result ≡ is_alone self.now }
    {
        count(&self.place, &self.peers, self.place.me) < self.place.size.faults()
    }

    /// How many events may be asked for: none while too few peers are reached for a recovery.
    fn most(&self) -> u8
        ensures { result ≡ most_of self.now }
    {
        if self.is_alone() { 0 } else { MOST_ASKED }
    }

    /// The replica's own time.
    fn time_at(&self, now: u64) -> u64
        ensures { result ≡ time_at self.now now }
    {
        if self.is_alone() {
            return now.saturating_sub(self.away);
        }
        match self.first {
            None => now.saturating_sub(self.away),
            Some(due) => self.time_by(now, due),
        }
    }

    /// The same where the first wait is over at this own time.
    fn time_by(&self, now: u64, due: u64) -> u64
        ensures { result ≡ time_by self.now now due }
    {
        let granularity = u64::from(self.waits.granularity);
        let expected = due.saturating_add(self.away).max(self.turned);
        if now <= expected.saturating_add(granularity) {
            return now.saturating_sub(self.away);
        }
        let last = self.turned.saturating_sub(self.away);
        last.saturating_add(granularity)
            .max(due.saturating_sub(granularity))
    }

    /// How long a recovery is waited for: the greatest time-out of all peers.
    fn again(&self) -> u32
        ensures { result ≡ again_of self.now }
    {
        slowest(&self.waits, &self.place, &self.peers, self.place.me)
    }

    /// What a turn at this own time judges an instance by.
    fn outlook(&self, time: u64, seen: &Seen) -> Outlook
        ensures { result ≡ outlook_of self.now time seen.now }
    {
        outlook_at(&self.waits, self.place, &self.peers, seen.spared, time)
    }

    /// Somebody has begun to recover this instance, at a ballot of this counter, or goes on with it. Another recovery would be in its way: it waits a while.
    /// Nothing changes where the instance isn't waited for.
    pub fn put_off(&mut self, instance: InstanceId, ballot: u16, now: u64)
        ensures { PutsOff self.old instance ballot now self.new }
    {
        let Some(old) = waiting_for(&self.all, instance) else {
            return;
        };
        let time = self.time_at(now);
        let wait = put_off_wait(self.again(), self.waits.longest, ballot);
        let until = later(time, wait, chance(self.seed, time, instance));
        let waiting = put_off(old, until);
        match put(&mut self.all, instance, waiting) {
            Ok(()) => {}
            Err(_) => unreachable!(),
        }
    }

    /// How an open instance is waited for as a turn comes.
    fn found_at(&self, outlook: &Outlook, seen: &Seen) -> Waiting
        ensures { result ≡ found_at self.now outlook.now seen.now }
    {
        let random = chance(self.seed, outlook.time, seen.instance);
        match waiting_for(&self.all, seen.instance) {
            None => {
                let distance = distance(&self.waits, &self.peers, seen.instance.replica());
                begun(outlook, self.waits.reported, distance, seen, random)
            }
            Some(waiting) => {
                if self.is_hurried {
                    hurried(outlook, waiting, random)
                } else {
                    waiting
                }
            }
        }
    }

    /// How it is waited for after the turn, by what is to be asked for it, and whether there is room to.
    fn after(&self, outlook: &Outlook, seen: &Seen, remedy: &Option<Remedy>, room: bool) -> Waiting
        ensures { result ≡ after self.now outlook.now seen.now (found_at self.now outlook.now seen.now) remedy.now room }
    {
        let waiting = self.found_at(outlook, seen);
        match remedy {
            None => {
                if outlook.time < waiting.due {
                    waiting
                } else {
                    waited_on(outlook, &waiting)
                }
            }
            Some(_) => {
                if !room {
                    return waiting;
                }
                let random = chance(self.seed, outlook.time, seen.instance);
                asked(outlook, self.waits.longest, &waiting, random)
            }
        }
    }

    /// What is to be asked for it.
    fn remedy(&self, outlook: &Outlook, seen: &Seen) -> Option<Remedy>
        ensures { result ≡ remedy_next self.now outlook.now seen.now }
    {
        remedy_at(outlook, seen, &self.found_at(outlook, seen))
    }

    /// A turn at this time, at which just these instances are open, in rising order: what to ask the replica for, at most 64 events. One that is seen for the
    /// first time is waited for; one whose wait is over is asked for, and waited for again, twice as long each time up to the longest wait; one that isn't open
    /// any more is forgotten. Running out of memory leaves all as it was.
    pub fn turn(
        &mut self,
        alloc: Global,
        now: u64,
        seen: &[Seen],
    ) -> Result<Vec<Remedy>, AllocError>
        requires { IsRising (instances seen.now) }
        ensures ok { IfOk result (λ asked. HasTurned self.old now seen.now self.new asked.items) }
        ensures err { OnErr result (self.new ≡ self.old) }
    {
        let time = self.time_at(now);
        let most = self.most();
        let mut all = IndexMap::with_capacity(alloc, seen.len())?;
        let mut asked = Vec::new(alloc);
        let mut first = None;
        for one in seen {
            let room = has_room(&asked, most);
            let outlook = self.outlook(time, one);
            let remedy = self.remedy(&outlook, one);
            let waiting = self.after(&outlook, one, &remedy, room);
            first = Some(earlier(first, waiting.due));
            put(&mut all, one.instance, waiting)?;
            add(&mut asked, granted(room, remedy))?;
        }
        self.away = now.saturating_sub(time);
        self.all = all;
        self.first = first;
        self.turned = now;
        self.is_hurried = false;
        Ok(asked)
    }

    /// When to turn next at the latest, where no instance is opened before. None: nothing is waited for, or too few peers are reached.
    pub fn next_due(&self) -> Option<u64>
        ensures { result ≡ next_due self.now }
    {
        if self.is_alone() {
            return None;
        }
        match self.first {
            None => None,
            Some(due) => {
                if self.is_hurried {
                    Some(self.turned)
                } else {
                    Some(due.saturating_add(self.away))
                }
            }
        }
    }
}
