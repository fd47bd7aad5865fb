//! Which frames are handled.

ghost use Rattle.std.specs.Prelude.{◌≡◌, ◌≤◌, ◌||◌, false, List, ℕ, IfOk, OnOk};
ghost use Rattle.ep_base.specs.Attributes.{same_list};
ghost use Rattle.ep_base.specs.Quorums.{size};
ghost use Rattle.ep_journal.specs.Entries.{AreJournals, entries_at};
ghost use Rattle.ep_view.specs.Handled.{handles, handled_in, handled_below, is_in, AreHandled};

use ep_audit::entries_of;
use ep_base::ReplicaId;
use ep_frame::Frame;
use ep_journal::{Entry, Event, Journals};
use indexmap::IndexSet;
use std::alloc::{AllocError, Global};

/// The frames that journals handle.
#[derive(Drop)]
pub struct Handled {
    frames: IndexSet<Vec<u8>>,
}

impl Handled {
    /// The frames that some entry of some journal handles.
    pub fn of(alloc: Global, journals: &Journals) -> Result<Handled, AllocError>
        ensures { IfOk result (λ h. AreHandled journals.now h) }
    {
        journals.are_journals();
        let mut handled = Handled::none(alloc);
        handled.note_all(alloc, journals)?;
        Ok(handled)
    }

    fn none(alloc: Global) -> Handled
        ensures { (b : List ℕ) → is_in result b ≡ false }
    {
        Handled {
            frames: IndexSet::new(alloc),
        }
    }

    /// Whether the frame is one of them.
    pub fn has(&self, frame: &Frame) -> bool
        ensures { result ≡ is_in self.now frame.now }
    {
        self.frames.contains(frame.as_slice())
    }

    // Adds the frame.
    #[tactic(auto, using(crate::proofs::Inserting::inserted))]
    fn note(&mut self, alloc: Global, frame: &Frame) -> Result<(), AllocError>
        ensures { OnOk result ((b : List ℕ) → is_in self.new b ≡ (same_list b frame.now || is_in self.old b)) }
    {
        let bytes = Vec::from_slice(alloc, frame.as_slice())?;
        self.frames.insert(bytes)?;
        Ok(())
    }

    // Adds the frame that the event handles, if it handles one.
    fn note_event(&mut self, alloc: Global, event: &Event) -> Result<(), AllocError>
        ensures { OnOk result ((b : List ℕ) → is_in self.new b ≡ (handles b event.now || is_in self.old b)) }
    {
        match event {
            Event::Handle(frame) => self.note(alloc, frame),
            _ => Ok(()),
        }
    }

    // Adds the frames that the entries handle.
    #[tactic(auto, using(crate::proofs::Inserting::noted))]
    fn note_entries(&mut self, alloc: Global, entries: &[Entry]) -> Result<(), AllocError>
        ensures { OnOk result ((b : List ℕ) → is_in self.new b ≡ (handled_in b entries.now || is_in self.old b)) }
    {
        for entry in entries {
            self.note_event(alloc, &entry.event)?;
        }
        Ok(())
    }

    // Adds the frames that the entries of the replica of this number handle.
    fn note_replica(
        &mut self,
        alloc: Global,
        journals: &Journals,
        replica: u8,
    ) -> Result<(), AllocError>
        requires journals { AreJournals journals.now }
        requires replica { replica ≤ 6 }
        ensures { OnOk result ((b : List ℕ) → is_in self.new b ≡ (handled_in b (entries_at journals.now replica) || is_in self.old b)) }
    {
        match ReplicaId::new(replica) {
            Ok(replica) => self.note_entries(alloc, entries_of(journals, replica)),
            Err(_) => unreachable!(),
        }
    }

    // Adds all frames that the journals handle.
    fn note_all(&mut self, alloc: Global, journals: &Journals) -> Result<(), AllocError>
        requires journals { AreJournals journals.now }
        requires none { (b : List ℕ) → is_in self.old b ≡ false }
        ensures { OnOk result (AreHandled journals.now self.new) }
    {
        for replica in 0..journals.size().count() {
            self.note_replica(alloc, journals, replica)?;
        }
        Ok(())
    }
}
