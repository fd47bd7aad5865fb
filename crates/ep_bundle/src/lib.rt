//! The bytes of journals and bundles.
//!
//! `ep_main` reads and writes bundles by this crate, and a program that keeps journals may. It keeps to docs/FORMATS.md,
//! section 2: what is read is what would be written for it, what is written is read back, and each entry is stepped again as
//! it is read, so that a `Journal` from a file is as good as one that was made by steps.
//! Entries are read and written one by one too, for a file that grows with its journal.
//!
//! Start with `journal.rt` and `bundle.rt` (reading), `writing.rt`, and specs/Bytes.antt; the laws, of entries, journals and
//! bundles, are `read_laws.rt` and `write_laws.rt`.
//!
//! Bytes are judged in their order: a field where it is read, an entry once it is whole. The first field at fault is
//! named, with its offset and what may stand there (`BadField`), as the grammar's definition says. A stage
//! that is added to the reader wants its definition in specs/Stages.antt first.
#![tactic(auto)]

mod bad_field;
mod bundle;
mod bundle_fault;
mod bundle_field;
mod bundle_header;
mod commands;
mod dialect;
mod draft;
mod draft_event;
mod draft_frames;
mod earlier;
mod entries;
mod events;
mod fields;
mod headers;
mod journal;
mod journal_dialect;
mod lengths;
mod opened;
mod pairs;
mod part_lengths;
mod part_room;
mod parts;
mod putting;
mod read_laws;
mod receipts;
mod respelled_writing;
mod respelling;
mod room;
mod upgrading;
mod values;
mod wanted;
mod write_laws;
mod writing;

pub use bad_field::BadField;
pub use bundle::{Bundle, read_bundle, read_bundle_of, read_end};
pub use bundle_fault::BundleFault;
pub use bundle_field::BundleField;
pub use bundle_header::BundleHeader;
pub use commands::read_command;
pub use dialect::Dialect;
pub use draft::Draft;
pub use draft_event::DraftEvent;
pub use draft_frames::DraftFrames;
pub use entries::read_draft;
pub use events::{read_counted, read_spared};
pub use fields::{field_u8, field_u32, field_u64, read_run, read_u64};
pub use headers::{read_cluster, read_header};
pub use journal::{read_count, read_entry, read_journal};
pub use journal_dialect::JournalDialect;
pub use pairs::read_map;
pub use part_lengths::{body_lengths, early_lengths, first_lengths, second_lengths};
pub use parts::read_instance;
pub use putting::{put_run, put_u8, put_u16, put_u32, put_u64};
pub use read_laws::{bundles_are_canonical, entries_are_canonical, journals_are_canonical};
pub use receipts::read_receipt;
pub use upgrading::in_third;
pub use wanted::Wanted;
pub use write_laws::{
    bundle_is_read_back, entries_are_read_back, journal_is_read_back, learn_entries, learn_entry,
    learn_fits, learn_opening,
};
pub use writing::{
    put_answer, put_command, put_entry, put_frame, put_instance, put_pairs, put_receipt,
    put_receipts, put_reported, put_value, write_bundle, write_contents, write_entry,
    write_journal,
};
