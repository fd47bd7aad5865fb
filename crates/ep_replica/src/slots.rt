//! The index of what a replica proposed.

ghost use Rattle.std.specs.Prelude.{◌≡◌, ◌<◌, ◌≤◌, ◌++◌, ◌∷◌, [], ℕ, List, Option, Some, length, IfOk, OnOk};
ghost use Rattle.ep_journal.specs.Entries.{frames_at};
ghost use Rattle.ep_journal.specs.Events.{event_of};
ghost use Rattle.ep_journal.specs.declared.entry.Entry.{Entry};
ghost use Rattle.ep_replica.specs.Receipts.{proposed_by};
ghost use Rattle.ep_replica.specs.declared.proposal.Proposal.{Proposal};
ghost use Rattle.ep_replica.specs.Slots.{found, named, HasPlace, HoldsProposals};

use crate::proposal::Proposal;
use ep_base::{InstanceId, ReplicaId};
use ep_journal::{Entry, Event};
use std::alloc::{AllocError, Global};
use std::marker::Model;

/// What an entry proposes, and as which instance: the one that its first frame is about.
fn proposal_in(entry: &Entry) -> Option<(InstanceId, Proposal)>
    ensures { (i : ℕ) → proposed_by (event_of entry.now.event) (frames_at entry.now.frames) i ≡ named result i }
{
    let Event::Propose {
        client,
        request,
        command: _,
        seen,
        spared: _,
    } = &entry.event
    else {
        return None;
    };
    let Some(frame) = entry.frames.as_slice().first() else {
        return None;
    };
    let proposal = Proposal {
        client: *client,
        request: *request,
        seen: *seen,
    };
    Some((frame.instance(), proposal))
}

/// The number of the instance that the entry proposes; 0 where it proposes none.
fn proposed_in(entry: &Entry) -> u16
    ensures { (me : ℕ) (slots : List (Option Proposal)) → result < length slots → HasPlace me entry.now slots }
{
    match proposal_in(entry) {
        Some((instance, _)) => instance.number(),
        None => 0,
    }
}

/// A replica's proposals, each at the number of its instance. It gets places as they are needed.
#[derive(Drop)]
pub(crate) struct Slots {
    items: Vec<Option<Proposal>>,
}

impl Model for Slots {
    ghost use Rattle.std.specs.Prelude.{List, Option};
    ghost use Rattle.ep_replica.specs.declared.proposal.Proposal.{Proposal};

    ghost Value = { List (Option Proposal) };

    ghost view = { λ s. s.items.items };
}

impl Slots {
    /// No proposals.
    pub(crate) fn new(alloc: Global) -> Slots
        ensures { result ≡ [] }
    {
        Slots {
            items: Vec::new(alloc),
        }
    }

    /// Makes a place for each own instance up to this number.
    #[inline(always)]
    pub(crate) fn reserve(&mut self, top: u16) -> Result<(), AllocError>
        ensures room { OnOk result (top < length self.new) }
        ensures same { (number : ℕ) → found self.new number ≡ found self.old number }
        ensures reports { (me : ℕ) (es : List Entry) → HoldsProposals me es self.old → HoldsProposals me es self.new }
    {
        for _ in self.items.len()..usize::from(top) + 1 {
            self.items.push(None)?;
        }
        Ok(())
    }

    /// The proposal of the instance of this number.
    pub(crate) fn get(&self, number: u16) -> Option<Proposal>
        ensures { result ≡ found self.now number }
    {
        *self.items.get(number as usize)?
    }

    /// The proposals in these entries of this replica.
    pub(crate) fn of(alloc: Global, me: ReplicaId, entries: &[Entry]) -> Result<Slots, AllocError>
        ensures { IfOk result (λ s. HoldsProposals me entries.now s) }
    {
        let mut slots = Slots::new(alloc);
        for entry in entries {
            slots.reserve(proposed_in(entry))?;
            slots.note(me, entry);
        }
        Ok(slots)
    }

    /// Keeps what the entry of this replica proposes. It takes no memory.
    #[inline(always)]
    pub(crate) fn note(&mut self, me: ReplicaId, entry: &Entry)
        requires room { HasPlace me entry.now self.old }
        ensures reported { (es : List Entry) → HoldsProposals me es self.old → HoldsProposals me (es ++ entry.now ∷ []) self.new }
        ensures room { length self.new ≡ length self.old }
    {
        let Some((instance, proposal)) = proposal_in(entry) else {
            return;
        };
        if instance.replica() == me {
            self.items[instance.number() as usize] = Some(proposal);
        }
    }
}
