//! What a node notes of its entries.

ghost use Rattle.std.specs.Prelude.{◌≡◌, ℕ};

use crate::first_entries::FirstEntries;
use crate::learning::{about_by, learnt_by};
use ep_journal::Entry;
use std::alloc::{AllocError, Global};

/// What a node notes of its first `seen` entries: for each instance which of them was the first about it, and which learnt
/// first that it is committed. Nothing is noted before it is asked for.
#[derive(Drop)]
pub(crate) struct Notes {
    pub(crate) seen: usize,
    pub(crate) about: FirstEntries,
    pub(crate) commits: FirstEntries,
}

impl Notes {
    ghost use Rattle.std.specs.Prelude.{◌≡◌, ◌<◌, ◌+◌, [], length, OnOk};
    ghost use Rattle.ep_node.specs.Reporting.{Knows};

    /// Of no entries.
    pub(crate) fn new(alloc: Global) -> Notes
        ensures { (result.seen ≡ 0) × (result.about ≡ []) × (result.commits ≡ []) }
    {
        Notes {
            seen: 0,
            about: FirstEntries::new(alloc),
            commits: FirstEntries::new(alloc),
        }
    }

    /// Notes the next of these entries, of which it has noted the first; at an `Err` it has noted no more.
    fn note(&mut self, entries: &[Entry]) -> Result<(), AllocError>
        requires next { self.old.seen < length entries.now }
        requires known { Knows entries.now self.old.seen self.old.about self.old.commits }
        ensures known { Knows entries.now self.new.seen self.new.about self.new.commits }
        ensures more { OnOk result (self.new.seen ≡ self.old.seen + 1) }
    {
        let entry = &entries[self.seen];
        let about = about_by(entry);
        let learnt = learnt_by(entry);
        self.about.reserve(&about)?;
        self.commits.reserve(&learnt)?;
        self.about.note(&about, entry.number);
        self.commits.note(&learnt, entry.number);
        self.seen += 1;
        Ok(())
    }

    /// Notes all of these entries, of which it has noted the first.
    pub(crate) fn note_all(&mut self, entries: &[Entry]) -> Result<(), AllocError>
        requires { Knows entries.now self.old.seen self.old.about self.old.commits }
        ensures kept { Knows entries.now self.new.seen self.new.about self.new.commits }
        ensures all { OnOk result (self.new.seen ≡ length entries.now) }
    {
        while self.seen < entries.len() {
            self.note(entries)?;
        }
        Ok(())
    }
}
