//! The receipts of one entry.

use crate::replica::Replica;
use ep_rules::Receipt;
use std::alloc::{AllocError, Global};

impl Replica {
    ghost use Rattle.std.specs.Prelude.{◌≡◌, ◌<◌, Some, IfOk, length, slice_get};
    ghost use Rattle.ep_journal.specs.Entries.{entry_of, entries_of};
    ghost use Rattle.ep_journal.specs.declared.entry.Entry.{Entry};
    ghost use Rattle.ep_replica.specs.Receipts.{receipts_of};

    /// The receipts of the commands that were proposed here and executed here by the entry at this place, counted from 0, in
    /// order of execution.
    pub fn receipts_of(&self, alloc: Global, place: usize) -> Result<Vec<Receipt>, AllocError>
        requires { place < length self.now.entries }
        ensures { (e : Entry) → slice_get self.now.entries place ≡ Some e → IfOk result (λ receipts. receipts.items ≡ receipts_of self.now.me (entries_of self.now.entries) (entry_of e)) }
    {
        let mut receipts = Vec::new(alloc);
        let entries = self.journal().entries();
        self.add_receipts(alloc, &entries[place], &mut receipts)?;
        Ok(receipts)
    }
}
