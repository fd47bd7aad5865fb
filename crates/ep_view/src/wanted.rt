//! What is asked for of journals, where some of it is reported by what was proposed.

ghost use Rattle.std.specs.Prelude.{◌≡◌, ◌≤◌, [], cond, Option, Some, None, List, ℕ, IfOk, OnOk};
ghost use Rattle.ep_base.specs.Quorums.{size};
ghost use Rattle.ep_journal.specs.Entries.{AreJournals, entries_at};
ghost use Rattle.ep_view.specs.Wanted.{is_of_client, is_on_key, is_wanted, with_taken, with_entries, taken_below, about_of, part_of};

use crate::selection::Selection;
use ep_audit::entries_of;
use ep_base::{Command, Deps, InstanceId, Key, ReplicaId};
use ep_frame::Frame;
use ep_journal::{Entry, Event, Journals};
use std::alloc::{AllocError, Global};

/// Which entries of journals are asked for, as words of a command line report it.
#[derive(Drop)]
pub struct Wanted {
    /// Those about this instance alone.
    pub instance: Option<InstanceId>,
    /// Those about the instances alone that proposals of commands on this key took.
    pub key: Option<Key>,
    /// Those about the instances alone that proposals of this client took; where a key is given too, on that key.
    pub client: Option<u32>,
    /// Those of this replica alone.
    pub replica: Option<ReplicaId>,
    /// The least stamp.
    pub from: u64,
    /// The greatest stamp.
    pub to: u64,
}

fn is_of_client(wanted: Option<u32>, client: u32) -> bool
    ensures { result ≡ is_of_client wanted client }
{
    match wanted {
        None => true,
        Some(wanted) => client == wanted,
    }
}

fn is_on_key(key: &Option<Key>, command: &Command) -> bool
    ensures { result ≡ is_on_key key.now command.now }
{
    match key {
        None => true,
        Some(key) => command.names(key.as_slice()),
    }
}

impl Wanted {
    /// The part of these journals that has what is wanted.
    pub fn part(&self, alloc: Global, journals: &Journals) -> Result<Selection, AllocError>
        ensures { IfOk result (λ part. part ≡ part_of journals.now self.now) }
    {
        let about = self.about(alloc, journals)?;
        Ok(Selection {
            instance: self.instance,
            about,
            replica: self.replica,
            from: self.from,
            to: self.to,
        })
    }

    // The instances that what is wanted is about, where a key or a client is given.
    fn about(&self, alloc: Global, journals: &Journals) -> Result<Option<Deps>, AllocError>
        ensures { IfOk result (λ about. about ≡ about_of journals.now self.now.key self.now.client) }
    {
        if self.key.is_none() && self.client.is_none() {
            return Ok(None);
        }
        Ok(Some(self.taken(alloc, journals)?))
    }

    // The instances that the wanted proposals took.
    fn taken(&self, alloc: Global, journals: &Journals) -> Result<Deps, AllocError>
        ensures { IfOk result (λ taken. taken ≡ taken_below self.now.key self.now.client journals.now (size journals.now.faults)) }
    {
        journals.are_journals();
        let mut taken = Deps::new(alloc);
        for replica in 0..journals.size().count() {
            self.add_replica(alloc, &mut taken, journals, replica)?;
        }
        Ok(taken)
    }

    // Adds what the wanted proposals of the replica of this number took.
    fn add_replica(
        &self,
        alloc: Global,
        taken: &mut Deps,
        journals: &Journals,
        replica: u8,
    ) -> Result<(), AllocError>
        requires journals { AreJournals journals.now }
        requires replica { replica ≤ 6 }
        ensures { OnOk result (taken.new ≡ with_entries self.now.key self.now.client (entries_at journals.now replica) taken.old) }
    {
        match ReplicaId::new(replica) {
            Ok(replica) => self.add_entries(alloc, taken, entries_of(journals, replica)),
            Err(_) => unreachable!(),
        }
    }

    // Adds what the wanted proposals of these entries took.
    fn add_entries(
        &self,
        alloc: Global,
        taken: &mut Deps,
        entries: &[Entry],
    ) -> Result<(), AllocError>
        ensures { OnOk result (taken.new ≡ with_entries self.now.key self.now.client entries.now taken.old) }
    {
        for entry in entries {
            self.add_entry(alloc, taken, entry)?;
        }
        Ok(())
    }

    // Adds what the entry's proposal took, if it is a wanted one.
    fn add_entry(&self, alloc: Global, taken: &mut Deps, entry: &Entry) -> Result<(), AllocError>
        ensures { OnOk result (taken.new ≡ cond (is_wanted self.now.key self.now.client entry.now.event) (with_taken entry.now.frames taken.old) taken.old) }
    {
        if !self.wants(&entry.event) {
            return Ok(());
        }
        add_taken(alloc, taken, entry.frames.as_slice())
    }

    // Whether the event is a wanted proposal.
    fn wants(&self, event: &Event) -> bool
        ensures { result ≡ is_wanted self.now.key self.now.client event.now }
    {
        match event {
            Event::Propose {
                client,
                command,
                ..
            } => is_of_client(self.client, *client) && is_on_key(&self.key, command),
            Event::Handle(_) | Event::GiveUp(_) | Event::Recover(_) | Event::Execute(_) => false,
        }
    }
}

/// Adds the instance that a proposal took.
pub(crate) fn add_taken(alloc: Global, taken: &mut Deps, frames: &[Frame]) -> Result<(), AllocError>
    ensures { OnOk result (taken.new ≡ with_taken frames.now taken.old) }
{
    let [first, ..] = frames else {
        return Ok(());
    };
    taken.insert(alloc, first.instance())
}
