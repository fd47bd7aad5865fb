//! Replicas behind locks.

ghost use Rattle.std.specs.Prelude.{◌≡◌, ◌≤◌, ◌+◌, IfOk, OnOk, vec_len, All};
ghost use Rattle.ep_base.specs.Quorums.{size};
ghost use Rattle.ep_base.specs.Versions.{version_number};
ghost use Rattle.ep_host.specs.Finishing.{StartAs};
ghost use Rattle.ep_host.specs.Rooms.{HaveRoom};
ghost use Rattle.ep_host.specs.Starts.{one_opening, one_version};
ghost use Rattle.ep_journal.specs.Openings.{Opening as Opened};
ghost use Rattle.ep_replica.specs.Kept.{start_of};

use crate::act::Act;
use crate::finished::Finished;
use crate::finishing::finished;
use crate::frames_out::FramesOut;
use crate::host_fault::HostFault;
use crate::host_frame::HostFrame;
use crate::port::Port;
use crate::seat::{Seat, inboxes_of, send};
use crate::second::Second;
use crate::start::Start;
use crate::tended::Tended;
use crate::turn::Turn;
use crate::weather::{Weather, is_weather};
use ep_base::{Command, InstanceId, ReplicaId, Size, Version};
use ep_journal::{Beginning, Journal, Opening};
use ep_replica::{Proposal, Replica};
use ep_rules::Receipt;
use std::alloc::{AllocError, Global};
use std::sync::Wait;

/// Replicas of one cluster, one for each of its numbers, which any thread may call. They all start, and their inboxes are as large, as the type says.
pub struct LockHost<S: Start = Second> {
    cluster: Size,
    /// The version of all replicas.
    version: Version,
    /// What all replicas opened with.
    opening: Opening,
    seats: Vec<Seat<S>>,
    alloc: Global,
    ghost seated: { vec_len seats ≡ size cluster },
    ghost of_version: { version ≡ S.start.0 } by { one_version _ _ },
    ghost of_opening: { opening ≡ S.start.1 } by { one_opening _ _ },
}

// (by hand, so that no crate above proves again how the parts are dropped)
impl<S: Start> Drop for LockHost<S> {
    fn drop(self) {
        let LockHost {
            cluster: _,
            version: _,
            opening,
            seats,
            alloc: _,
        } = self;
        drop(opening);
        drop(seats);
    }
}

/// The journal of the replica, which starts so.
fn journal_of<S: Start>(seat: Seat<S>) -> Journal
    ensures { start_of result ≡ S.start }
{
    let Seat { cell, sender } = seat;
    drop(sender);
    cell.into_inner().into_journal()
}

/// The journals of the replicas, which start so.
fn journals_of<S: Start>(alloc: Global, seats: Vec<Seat<S>>) -> Result<Vec<Journal>, AllocError>
    ensures start { IfOk result (λ journals. StartAs S.start journals.items) }
    ensures count { IfOk result (λ journals. vec_len journals ≡ vec_len seats) }
{
    let mut journals = Vec::new(alloc);
    match journals.reserve(seats.len()) {
        Ok(()) => {
            for seat in seats {
                journals.push_reserved(journal_of(seat));
            }
            Ok(journals)
        }
        Err(fault) => {
            drop(seats);
            Err(fault)
        }
    }
}

/// Adds a seat for each replica of a cluster of which these are the inboxes. Hands out the opening once more.
fn add_seats<S: Start>(
    seats: &mut Vec<Seat<S>>,
    inboxes: &Vec<Port<HostFrame>>,
    cluster: Size,
    beginning: &Beginning,
) -> Result<Opening, AllocError>
    requires inboxes { vec_len inboxes.now ≡ size cluster }
    requires known { 2 ≤ version_number beginning.now.version }
    requires start { S.start ≡ (beginning.now.version, beginning.now.opening) }
    requires room { HaveRoom S.room inboxes.now.items }
    ensures count { OnOk result (vec_len seats.new ≡ vec_len seats.old + size cluster) }
    ensures opening { IfOk result (λ (o : Opened). o ≡ beginning.now.opening) }
{
    let alloc = *inboxes.allocator();
    for number in 0..cluster.count() {
        let replica = Replica::member(alloc, cluster, number, beginning)?;
        seats.push(Seat::new(alloc, replica, inboxes.as_slice())?)?;
    }
    beginning.opening().copy(alloc)
}

impl<S: Start> LockHost<S> {
    ghost use Rattle.std.specs.Prelude.{◌≡◌, ◌≤◌, ◌<◌, Some, None, IfOk, IfErr, IfSome, OnOk};
    ghost use Rattle.ep_base.specs.Quorums.{size};
    ghost use Rattle.ep_base.specs.Versions.{version_number};
    ghost use Rattle.ep_base.specs.declared.version_kind.VersionKind.TheVariants.{V2};
    ghost use Rattle.ep_journal.specs.Openings.{no_opening};
    ghost use Rattle.ep_journal.specs.declared.event.Event.TheVariants.{Propose};
    ghost use Rattle.ep_host.specs.Asking.{IsTaken, IsSubmitted, IsPumped, IsRefused, IsUnreported, AreReported, IsOutcomeIn};
    ghost use Rattle.ep_host.specs.Finishing.{IsFinished};
    ghost use Rattle.ep_host.specs.Rooms.{HasRoom};
    ghost use Rattle.ep_host.specs.Setting.{IsUnset};
    ghost use Rattle.ep_host.specs.Tending.{event_of};
    ghost use Rattle.ep_host.specs.Weathers.{IsWeather};
    ghost use Rattle.ep_host.specs.declared.host_fault.HostFault.TheVariants.{OutOfRange};

    /// The replicas of a cluster of this size, of version 2, before any event, each with an inbox for so many frames.
    pub fn new(alloc: Global, cluster: Size, capacity: usize) -> Result<LockHost<S>, AllocError>
        requires capacity { (1 ≤ capacity) × (capacity ≤ 4096) }
        requires start { S.start ≡ (V2, no_opening) }
        requires room { HasRoom S.room capacity }
        ensures cluster { IfOk result (λ host. host.cluster ≡ cluster) }
        ensures version { IfOk result (λ host. host.version ≡ V2) }
        ensures opening { IfOk result (λ host. host.opening ≡ no_opening) }
    {
        LockHost::opened(
            alloc,
            cluster,
            capacity,
            &Beginning::new(alloc, Version::V2),
        )
    }

    /// The replicas of a cluster of this size, all of which begin so, in version 2 or 3, before any event, each with an inbox
    /// for so many frames.
    pub fn opened(
        alloc: Global,
        cluster: Size,
        capacity: usize,
        beginning: &Beginning,
    ) -> Result<LockHost<S>, AllocError>
        requires capacity { (1 ≤ capacity) × (capacity ≤ 4096) }
        requires known { 2 ≤ version_number beginning.now.version }
        requires start { S.start ≡ (beginning.now.version, beginning.now.opening) }
        requires room { HasRoom S.room capacity }
        ensures cluster { IfOk result (λ host. host.cluster ≡ cluster) }
        ensures version { IfOk result (λ host. host.version ≡ beginning.now.version) }
        ensures opening { IfOk result (λ host. host.opening ≡ beginning.now.opening) }
    {
        let inboxes = inboxes_of(alloc, cluster, capacity)?;
        let mut seats = Vec::new(alloc);
        let added = add_seats(&mut seats, &inboxes, cluster, beginning);
        drop(inboxes);
        match added {
            Ok(opening) => Ok(LockHost {
                cluster,
                version: beginning.version(),
                opening,
                seats,
                alloc,
            }),
            Err(fault) => {
                drop(seats);
                Err(fault)
            }
        }
    }

    /// The cluster's size.
    pub fn size(&self) -> Size
        ensures { result ≡ self.now.cluster }
    {
        self.cluster
    }

    /// The version of all replicas.
    pub fn version(&self) -> Version
        ensures { result ≡ self.now.version }
    {
        self.version
    }

    /// What all replicas opened with; nothing, where they are of version 2.
    pub fn opening(&self) -> &Opening
        ensures { result.now ≡ self.now.opening }
    {
        &self.opening
    }

    /// For how many frames the replica's inbox has room: as many as the type says.
    pub fn capacity<R: Wait>(&self, rt: &R, replica: ReplicaId) -> Result<usize, HostFault>
        ensures ok { IfOk result (λ n. (replica < size self.now.cluster) × HasRoom S.room n) }
        ensures none { IfErr result (λ fault. (fault ≡ OutOfRange) × (size self.now.cluster ≤ replica)) }
    {
        let seat = self.seat(replica)?;
        Ok(seat.sender.lock(rt).capacity())
    }

    /// The seat of the replica.
    fn seat(&self, replica: ReplicaId) -> Result<&Seat<S>, HostFault>
        ensures ok { OnOk result (replica < size self.now.cluster) }
        ensures err { IfErr result (λ fault. (fault ≡ OutOfRange) × (size self.now.cluster ≤ replica)) }
    {
        match self.seats.get(replica.index() as usize) {
            Some(seat) => Ok(seat),
            None => Err(HostFault::OutOfRange),
        }
    }

    /// Proposes a client's command at the replica, and sends the entry's frames. Answers the instance that it is proposed as.
    pub fn submit<R: Wait>(
        &self,
        rt: &R,
        replica: ReplicaId,
        client: u32,
        request: u32,
        command: Command,
        seen: u64,
    ) -> Result<InstanceId, HostFault>
        ensures ok { IfOk result (λ i. (replica < size self.now.cluster) × IsSubmitted S.start (Propose client request command seen None) i) }
        ensures refused { IfErr result (IsRefused S.start self.now.cluster replica (Propose client request command seen None)) }
    {
        let seat = self.seat(replica)?;
        let (instance, sending) = {
            let mut replica = seat.cell.lock(rt);
            let instance = replica.submit(client, request, command, seen)?;
            (instance, replica.sent_last(self.alloc))
        };
        send(rt, seat, sending);
        Ok(instance)
    }

    /// The same; the replica spares this other one, in the place of the usual one.
    pub fn submit_sparing<R: Wait>(
        &self,
        rt: &R,
        replica: ReplicaId,
        proposal: Proposal,
        command: Command,
        spared: ReplicaId,
    ) -> Result<InstanceId, HostFault>
        ensures ok { IfOk result (λ i. (replica < size self.now.cluster) × IsSubmitted S.start (Propose proposal.client proposal.request command proposal.seen (Some spared)) i) }
        ensures refused { IfErr result (IsRefused S.start self.now.cluster replica (Propose proposal.client proposal.request command proposal.seen (Some spared))) }
    {
        let seat = self.seat(replica)?;
        let (instance, sending) = {
            let mut replica = seat.cell.lock(rt);
            let instance = replica.submit_sparing(proposal, command, spared)?;
            (instance, replica.sent_last(self.alloc))
        };
        send(rt, seat, sending);
        Ok(instance)
    }

    /// Has the replica act on an instance, and sends the entry's frames.
    pub fn direct<R: Wait>(&self, rt: &R, replica: ReplicaId, act: Act) -> Result<(), HostFault>
        ensures ok { OnOk result ((replica < size self.now.cluster) × IsTaken S.start (event_of act)) }
        ensures refused { IfErr result (IsRefused S.start self.now.cluster replica (event_of act)) }
    {
        let seat = self.seat(replica)?;
        let sending = {
            let mut replica = seat.cell.lock(rt);
            replica.direct(self.alloc, act.event())?
        };
        send(rt, seat, sending);
        Ok(())
    }

    /// Takes at most one frame from the replica's inbox, tends the replica under its lock, and then sends what that answers.
    /// `OutOfRange` where there is no such replica, and no other fault.
    pub fn pump<R: Wait>(&self, rt: &R, replica: ReplicaId) -> Result<Turn, HostFault>
        ensures ok { IfOk result (λ turn. (replica < size self.now.cluster) × IsPumped S.start turn) }
        ensures none { IfErr result (λ fault. (fault ≡ OutOfRange) × (size self.now.cluster ≤ replica)) }
    {
        let seat = self.seat(replica)?;
        let frame = seat.sender.lock(rt).receive(rt);
        let Tended {
            moved,
            frames,
            lost,
        } = {
            let mut replica = seat.cell.lock(rt);
            replica.pump(self.alloc, frame)
        };
        send(rt, seat, FramesOut { frames, lost });
        Ok(Turn::of(moved))
    }

    /// The receipt of the instance's first execution by the replica that leads it; none where that isn't one of the cluster's.
    pub fn outcome<R: Wait>(
        &self,
        rt: &R,
        instance: InstanceId,
    ) -> Result<Option<Receipt>, AllocError>
        ensures { IfOk result (λ o. IfSome o (IsOutcomeIn S.start self.now.cluster instance)) }
    {
        match self.seat(instance.replica()) {
            Ok(seat) => seat.cell.lock(rt).outcome(self.alloc, instance),
            Err(_) => Ok(None),
        }
    }

    /// The receipts of what was proposed at this replica and executed there by an entry with a greater number than this one.
    pub fn receipts_after<R: Wait>(
        &self,
        rt: &R,
        replica: ReplicaId,
        entry: u32,
    ) -> Result<Vec<Receipt>, HostFault>
        ensures ok { IfOk result (λ receipts. (replica < size self.now.cluster) × AreReported S.start entry receipts.items) }
        ensures unreported { IfErr result (IsUnreported self.now.cluster replica) }
    {
        let seat = self.seat(replica)?;
        let receipts = seat.cell.lock(rt).receipts_after(self.alloc, entry)?;
        Ok(receipts)
    }

    /// Sets the weather: what is to become of which frames that the replicas send from now on. Each replica's part of the list takes the place of the
    /// one before, by rising replica, each under its sending lock, and its frames for each other one are counted anew; what is held stays held.
    ///
    /// `OutOfRange` if an item names a frame that no replica sends, or two items name the same frame; nothing changes. Otherwise `Memory` when out of memory. The replicas before the one that it was wanted for then have their new part, and the others
    /// are as they were.
    pub fn set_weather<R: Wait>(&self, rt: &R, weather: &[Weather]) -> Result<(), HostFault>
        ensures ok { OnOk result (IsWeather self.now.cluster weather.now) }
        ensures unset { IfErr result (IsUnset (IsWeather self.now.cluster weather.now)) }
    {
        if !is_weather(self.cluster, weather) {
            return Err(HostFault::OutOfRange);
        }
        for seat in &self.seats {
            seat.sender.lock(rt).set_weather(self.alloc, weather)?;
        }
        Ok(())
    }

    /// Puts the held frames into the inboxes of their receivers, by rising replica, each under its sending lock, and of each by rising receiver and
    /// in order. Those that find an inbox full are lost, and counted.
    pub fn release<R: Wait>(&self, rt: &R) {
        for seat in &self.seats {
            seat.sender.lock(rt).release(rt);
        }
    }

    /// How many frames were lost: when out of memory, and where an inbox was full. Counted up to 2^64 - 1.
    pub fn lost<R: Wait>(&self, rt: &R) -> u64 {
        let mut sum = 0u64;
        for seat in &self.seats {
            sum = sum.saturating_add(seat.sender.lock(rt).lost());
        }
        sum
    }

    /// The journals that the replicas leave, which are of the host's version and opening, and what the audit says of them with these receipts. Want of
    /// memory drops the host.
    pub fn finish(self, receipts: &[Receipt]) -> Result<Finished, AllocError>
        ensures audited { IfOk result (IsFinished receipts.now) }
        ensures size { IfOk result (λ f. f.journals.faults ≡ self.cluster) }
        ensures version { IfOk result (λ f. f.journals.version ≡ self.version) }
        ensures opening { IfOk result (λ f. f.journals.opening ≡ self.opening) }
    {
        let LockHost {
            cluster: _,
            version: _,
            opening,
            seats,
            alloc,
        } = self;
        drop(opening);
        let journals = journals_of(alloc, seats)?;
        finished(alloc, journals, receipts)
    }
}
