//! The frames that a step sends.

ghost use Rattle.std.specs.Prelude.{◌≡◌, ◌≢◌, ◌≤◌, ◌+◌, ◌++◌, [], ◌∷◌, cond, length, IfOk, OnOk};
ghost use Rattle.ep_base.specs.Fitting.{BallotsFit};
ghost use Rattle.ep_base.specs.Messages.{says};
ghost use Rattle.ep_base.specs.Quorums.{size};
ghost use Rattle.ep_base.specs.Versions.{CanSay};
ghost use Rattle.ep_phase.specs.Changes.{sends, to_receivers};
ghost use Rattle.ep_rules.specs.Counting.{to_those};
ghost use Rattle.ep_rules.specs.Fitting.{AllFit};
ghost use Rattle.ep_rules.specs.Steps.{sent_from};
ghost use Rattle.ep_frame.specs.Upgrading.{IsUpgradedFrame};
ghost use Rattle.ep_journal.specs.Holding.{AllSayable};
ghost use Rattle.ep_journal.specs.Events.{AreSpelled};
ghost use Rattle.ep_base.specs.declared.message.Message.{Message};
ghost use Rattle.ep_journal.specs.Inputs.{receives};
ghost use Rattle.ep_journal.specs.Several.{to_each};
ghost use Rattle.ep_journal.specs.Upgrading.{AreEarlyFrames, IsEarlyFrame, AreUpgradedFrames};

use crate::chosen::Chosen;
use crate::mark::Mark;
use ep_base::{ReplicaId, Version};
use ep_frame::{Frame, InstanceMessage, Origin, Round, write_each, write_said};
use ep_phase::{Change, InstanceView, Receivers, is_fast};
use std::alloc::{AllocError, Global};
use std::marker::Model;

/// The frames that an entry sends, by rising receiver.
pub struct Frames {
    items: Vec<Frame>,
}

// (by hand, so that no crate above proves again how the parts are dropped)
impl Drop for Frames {
    fn drop(self) {
        let Frames { items } = self;
        drop(items);
    }
}

impl Model for Frames {
    ghost use Rattle.std.specs.Prelude.{List, ℕ};

    ghost Value = { List (List ℕ) };

    ghost view = { λ f. f.items.items };
}

impl Frames {
    /// No frames.
    pub fn none(alloc: Global) -> Frames
        ensures { result ≡ [] }
    {
        Frames {
            items: Vec::new(alloc),
        }
    }

    /// These frames.
    pub fn new(items: Vec<Frame>) -> Frames
        ensures { result ≡ items.items }
    {
        Frames { items }
    }

    /// The same frames again, which share their bytes.
    pub fn copy(&self, alloc: Global) -> Result<Frames, AllocError>
        ensures { IfOk result (λ f. f ≡ self.now) }
    {
        let items = Vec::from_clones(alloc, &self.items)?;
        Ok(Frames { items })
    }

    /// The frames, in order.
    pub fn as_slice(&self) -> &[Frame]
        ensures { result.now ≡ self.now }
    {
        self.items.as_slice()
    }

    /// Spells the frames in version 2.
    pub(crate) fn upgrade(&mut self, alloc: Global) -> Result<(), AllocError>
        requires early { AreEarlyFrames self.old }
        ensures { OnOk result (AreUpgradedFrames self.old self.new) }
    {
        upgrade_each(alloc, &mut self.items)
    }
}

/// Spells the frame in version 2.
pub(crate) fn upgrade(alloc: Global, frame: &mut Frame) -> Result<(), AllocError>
    requires early { IsEarlyFrame frame.old }
    ensures { OnOk result (IsUpgradedFrame frame.old frame.new) }
{
    *frame = frame.upgraded(alloc)?;
    Ok(())
}

/// Spells each frame in version 2.
fn upgrade_each(alloc: Global, frames: &mut [Frame]) -> Result<(), AllocError>
    requires early { AreEarlyFrames frames.old }
    ensures { OnOk result (AreUpgradedFrames frames.old frames.new) }
{
    for frame in frames.iter_mut() {
        upgrade(alloc, frame)?;
    }
    Ok(())
}

/// The frames of what the change sends, in this version, as those of the entry with this mark.
#[inline(always)]
pub(crate) fn written(
    alloc: Global,
    cell: &InstanceView<'_>,
    version: Version,
    mark: Mark,
    change: &Change,
) -> Result<Frames, AllocError>
    requires number { 1 ≤ mark.number }
    requires fit { AllFit cell.now.me (sends cell.now change.now) }
    requires said { AllSayable version (sends cell.now change.now) }
    ensures { IfOk result (λ f. AreSpelled version mark.number mark.stamp 0 f (sent_from cell.now.me (sends cell.now change.now))) }
{
    let Some((to, message)) = change.said(cell) else {
        return Ok(Frames::none(alloc));
    };
    let multicast = Multicast {
        version,
        mark,
        to,
        message: &message,
    };
    written_of(alloc, cell, &multicast)
}

/// The frames of the message, by rising receiver.
#[inline(always)]
fn written_of(
    alloc: Global,
    cell: &InstanceView<'_>,
    multicast: &Multicast<'_>,
) -> Result<Frames, AllocError>
    requires number { 1 ≤ multicast.now.mark.number }
    requires fit { AllFit cell.now.me (to_receivers cell.now.faults cell.now.me cell.now.instance multicast.now.to (says multicast.now.message.now.instance multicast.now.message.now.said)) }
    requires said { AllSayable multicast.now.version (to_receivers cell.now.faults cell.now.me cell.now.instance multicast.now.to (says multicast.now.message.now.instance multicast.now.message.now.said)) }
    ensures { IfOk result (λ f. AreSpelled multicast.now.version multicast.now.mark.number multicast.now.mark.stamp 0 f (sent_from cell.now.me (to_receivers cell.now.faults cell.now.me cell.now.instance multicast.now.to (says multicast.now.message.now.instance multicast.now.message.now.said)))) }
{
    match &multicast.to {
        Receivers::One(to) => written_to(alloc, cell, multicast, *to),
        Receivers::FastQuorum(_) => written_to_each(alloc, cell, multicast),
        Receivers::Others => written_to_each(alloc, cell, multicast),
    }
}

/// The frame of the message to this replica alone.
#[inline(always)]
fn written_to(
    alloc: Global,
    cell: &InstanceView<'_>,
    multicast: &Multicast<'_>,
    to: ReplicaId,
) -> Result<Frames, AllocError>
    requires number { 1 ≤ multicast.now.mark.number }
    requires apart { to ≢ cell.now.me }
    requires fits { BallotsFit (says multicast.now.message.now.instance multicast.now.message.now.said) }
    requires said { CanSay multicast.now.version (says multicast.now.message.now.instance multicast.now.message.now.said) }
    ensures { IfOk result (λ f. AreSpelled multicast.now.version multicast.now.mark.number multicast.now.mark.stamp 0 f (sent_from cell.now.me ((to, says multicast.now.message.now.instance multicast.now.message.now.said) ∷ []))) }
{
    let origin = Origin {
        to,
        out: 0,
        entry: multicast.mark.number,
        stamp: multicast.mark.stamp,
    };
    let mut items = Vec::with_capacity(alloc, 1)?;
    let frame = write_said(
        alloc,
        multicast.version,
        cell.me(),
        multicast.message,
        origin,
    )?;
    items.push_reserved(frame);
    Ok(Frames { items })
}

/// The frames of the message to each of several replicas, by rising receiver. They share one run of bytes.
fn written_to_each(
    alloc: Global,
    cell: &InstanceView<'_>,
    multicast: &Multicast<'_>,
) -> Result<Frames, AllocError>
    requires number { 1 ≤ multicast.now.mark.number }
    requires fit { AllFit cell.now.me (to_those (receives cell.now multicast.now.to) (size cell.now.faults) (says multicast.now.message.now.instance multicast.now.message.now.said)) }
    requires said { AllSayable multicast.now.version (to_those (receives cell.now multicast.now.to) (size cell.now.faults) (says multicast.now.message.now.instance multicast.now.message.now.said)) }
    ensures { IfOk result (λ f. AreSpelled multicast.now.version multicast.now.mark.number multicast.now.mark.stamp 0 f (sent_from cell.now.me (to_those (receives cell.now multicast.now.to) (size cell.now.faults) (says multicast.now.message.now.instance multicast.now.message.now.said)))) }
{
    let chosen = receivers_of(cell, multicast);
    let receivers = chosen.as_slice();
    if receivers.is_empty() {
        return Ok(Frames::none(alloc));
    }
    let round = Round {
        entry: multicast.mark.number,
        stamp: multicast.mark.stamp,
        receivers,
    };
    let items = write_each(
        alloc,
        multicast.version,
        cell.me(),
        multicast.message,
        &round,
    )?;
    Ok(Frames { items })
}

/// The cluster's replicas that are receivers, by rising number.
fn receivers_of(cell: &InstanceView<'_>, multicast: &Multicast<'_>) -> Chosen
    ensures few { length result ≤ 7 }
    ensures sent { (m : Message) → to_each result m ≡ to_those (receives cell.now multicast.now.to) (size cell.now.faults) m }
{
    let mut chosen = Chosen::none(cell.me());
    for r in 0..cell.size().count() {
        add_if(&mut chosen, cell, multicast, r);
    }
    chosen
}

/// Adds the replica of this number, if it is one of the receivers.
#[tactic(auto, using(crate::proofs::Spelling::each_added, crate::proofs::Spelling::each_passed))]
fn add_if(chosen: &mut Chosen, cell: &InstanceView<'_>, multicast: &Multicast<'_>, r: u8)
    requires replica { r ≤ 6 }
    requires room { length chosen.old ≤ r }
    ensures few { length chosen.new ≤ r + 1 }
    ensures sent { (m : Message) → to_each chosen.new m ≡ to_each chosen.old m ++ cond (receives cell.now multicast.now.to r) ((r, m) ∷ []) [] }
{
    if is_receiver(cell, multicast.to, r) {
        chosen.push(replica(r));
    }
}

/// Whether the replica is one of these receivers.
fn is_receiver(cell: &InstanceView<'_>, to: Receivers, replica: u8) -> bool
    ensures { result ≡ receives cell.now to replica }
{
    match to {
        Receivers::One(one) => replica == one.index(),
        Receivers::FastQuorum(spared) => is_fast(cell.id().replica(), spared, replica),
        Receivers::Others => replica != cell.me().index(),
    }
}

/// A message of the entry with this mark, in this version, and who gets it.
#[derive(Drop)]
struct Multicast<'a> {
    version: Version,
    mark: Mark,
    to: Receivers,
    message: &'a InstanceMessage<'a>,
}

/// The replica of this number.
fn replica(index: u8) -> ReplicaId
    requires { index ≤ 6 }
    ensures { result ≡ index }
{
    ReplicaId::new(index).unwrap()
}
